// What one sample says, as entries: its sign, and where reset and a write cycle begin and end.
#![tactic(auto)]

ghost use Rattle.std.specs.Prelude.{◌≡◌, ◌+◌, ◌≤◌};
ghost use Rattle.entries.specs.Entries.{Says};
ghost use Rattle.sample.specs.Sample.{sign_in, seen_by};
ghost use Rattle.said.specs.Said.{stop_says, said_by, heard_in, sample_says};

use entries::Entry;
use ground::kinds;
use levels::answers;
use part::state::{Device, Load, State};
use wire::Sign;

// What a stop says: a byte that it cuts off takes the load and a pending register byte with it.
#[tactic(auto, unfolding(crate::specs::Said::stop_says))]
fn stop(bits: u8, device: Device, load: Load) -> Entry
    ensures { result ≡ stop_says bits device load }
{
    let cut = ends::cuts_off(device.talk.phase, bits);
    Entry::Stop {
        bits,
        cut,
        load: cut & page::marked(load.marks),
        register: cut & device.control.pending,
    }
}

// What a sign says, as the state before it met it.
fn say(sign: Sign, before: State) -> Option<Entry>
    ensures { result ≡ said_by sign before }
{
    let device = before.device;
    match sign {
        Sign::Quiet | Sign::Bit => None,
        Sign::Start => Some(Entry::Start(before.wire.frame.bits)),
        Sign::Stop(bits) => Some(stop(bits, device, before.load)),
        Sign::Byte(v) => {
            let why = withheld::reason(kinds::kind_of(before.chip.part), device);
            Some(Entry::Byte(device.talk.phase, v, why))
        }
        Sign::Ninth(line) => Some(Entry::Ninth {
            line,
            own: device.talk.own,
        }),
    }
}

// What the sign of a sample says; nothing while reset is active.
#[tactic(auto, unfolding(sample::specs::Sample::sign_in))]
fn hear(reset: bool, level: u8, before: State) -> Option<Entry>
    ensures { result ≡ heard_in (seen_by reset (sign_in level before)) before }
{
    if reset {
        return None;
    }
    let sda = answers::line(level, before.device.talk.own);
    let seen = wire::see(before.wire, answers::scl(level), sda);
    say(seen.sign, before)
}

// All that one sample says, from the states before and after it, laid over the row.
pub fn put_sample(
    before: State,
    after: State,
    elapsed: u32,
    level: u8,
    place: usize,
    entries: &mut [u64],
    at: usize,
) -> usize
    requires { at + 4 ≤ 18446744073709551615 }
    ensures { Says 4 place (sample_says elapsed level before after) at entries.old result entries.new }
{
    let was = before.timers;
    let is = after.timers;
    let wrote = 0 < was.write;
    let goes_on = elapsed < was.write;
    let writes = 0 < is.write;
    let reset = entries::edge(was.reset, is.reset, Entry::ResetBegins, Entry::ResetEnds);
    let ended = entries::edge(wrote, goes_on, Entry::CycleBegins, Entry::CycleEnds);
    let sign = hear(is.reset, level, before);
    let begun = entries::edge(goes_on, writes, Entry::CycleBegins, Entry::CycleEnds);
    let first = entries::put(reset, place, entries, at);
    let second = entries::put(ended, place, entries, first);
    let third = entries::put(sign, place, entries, second);
    entries::put(begun, place, entries, third)
}
