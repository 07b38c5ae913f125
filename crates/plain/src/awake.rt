// Samples with VCC good and reset inactive in which no timer ends.
ghost use Rattle.std.specs.Prelude.{◌≡◌, ◌≤◌, length};
ghost use Rattle.part.specs.Bench.{part_of};
ghost use Rattle.clocks.specs.Goes.{Goes};
ghost use Rattle.clocks.specs.Clocks.{spoken_of};
ghost use Rattle.plain.specs.Awake.{Goes_on};

use clocks::rooms::Times;
use clocks::turns::{Clocks, Turn};
use clocks::{Stand, rooms, turns};
use ground::kinds;
use ground::kinds::Kind;
use part::state::{Device, Load, PAGE, State, Talk, Wire};

// Where the loops stopped, and the sample before which they did. The talk's bits stand in `now`, its phase
// in the device.
#[derive(Clone, Copy)]
pub struct Gone {
    pub times: Times,
    pub device: Device,
    pub now: Clocks,
    pub load: Load,
    pub at: usize,
}

// The device with the talk that the clocks have come to.
fn spoken(d: Device, now: Clocks) -> Device
    ensures { result ≡ spoken_of d now }
{
    let talk = Talk {
        high: now.high,
        out: now.out,
        own: now.own,
        ..d.talk
    };
    Device { talk, ..d }
}

// The outer loop: what a byte needs twice and a transfer a few times; the inner one takes the clocks. Stops
// where VCC is low or a timer would end, and before a stop that has something to do.
fn go_on(
    kind: Kind,
    select: u8,
    base: u8,
    first: Gone,
    elapsed: &[u32],
    levels: &[u8],
    array: &[u8],
    row: &mut [u8],
) -> Gone
    requires elapsed_len { length elapsed.now ≡ length levels.now }
    requires row_len { length row.old ≡ length levels.now }
    requires base_bound { base ≤ 6 }
    ensures { Goes_on kind select base elapsed.now levels.now array.now first row.old result row.new }
{
    let Gone {
        mut times,
        mut device,
        mut now,
        mut load,
        at: mut i,
    } = first;
    let mut empty = false;
    // A `while`: the clocks' loop moves the index by as many samples as it takes.
    while i < levels.len() {
        let spent = elapsed[i];
        let level = levels[i];
        match turns::turn_of(now, spent, level) {
            Turn::Plain => {
                let sends = bits::sends(device.talk.phase);
                let ran = turns::pass(now, sends, base, elapsed, levels, row, i);
                now = ran.now;
                i = ran.at;
            }
            Turn::Eighth => {
                let d = spoken(device, now);
                let v = wire::push(now.shift, now.bit);
                if device::fills(kind, d) {
                    let place = (d.counter.0 % PAGE) as usize;
                    load.bytes[place] = v;
                    load.marks[place] = true;
                    empty = false;
                }
                device = device::byte(kind, select, d, v);
                now = turns::fallen(now, device.talk, spent, level);
                i = rooms::tell(row, i, now.own, base);
            }
            Turn::Ninth => {
                device = bits::ninth(kind, array, now.bit, spoken(device, now));
                now = turns::fallen(now, device.talk, spent, level);
                i = rooms::tell(row, i, now.own, base);
            }
            Turn::Start => {
                if !empty {
                    load = page::empty();
                    empty = true;
                }
                times = rooms::started(times, now.room - spent, device.control.stored);
                device = ends::start(0 < times.write, device);
                now = turns::cut(false, times.all);
                i = rooms::tell(row, i, true, base);
            }
            Turn::Stop => {
                if device.control.pending || !empty {
                    break;
                }
                device = ends::end(device);
                now = turns::cut(true, now.room - spent);
                i = rooms::tell(row, i, true, base);
            }
            Turn::Other => break,
        }
    }
    Gone {
        times,
        device,
        now,
        load,
        at: i,
    }
}

pub fn pass(
    s: State,
    elapsed: &[u32],
    levels: &[u8],
    array: &[u8],
    row: &mut [u8],
    from: usize,
) -> Stand
    requires elapsed_len { length elapsed.now ≡ length levels.now }
    requires row_len { length row.old ≡ length levels.now }
    requires from_in_bounds { from ≤ length levels.now }
    ensures { Goes elapsed.now levels.now from (part_of s array.now) row.old result.at (part_of result.state array.now) row.new }
{
    let before = s.timers;
    if before.reset || before.low {
        return Stand { state: s, at: from };
    }
    let kind = kinds::kind_of(s.chip.part);
    let base = rooms::base_of(kind.high, false, before.write);
    let times = rooms::times_of(before.write, before.watchdog);
    let first = Gone {
        times,
        device: s.device,
        now: turns::clocks_of(s.wire, s.device.talk, times.all),
        load: s.load,
        at: from,
    };
    let last = go_on(
        kind,
        s.chip.select,
        base,
        first,
        elapsed,
        levels,
        array,
        row,
    );
    let state = State {
        timers: rooms::timers_at(before.hold, last.times, last.now.room),
        wire: Wire::from(last.now),
        device: spoken(last.device, last.now),
        load: last.load,
        ..s
    };
    Stand { state, at: last.at }
}
