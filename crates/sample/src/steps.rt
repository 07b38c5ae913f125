// One sample, in the order of its four rules.
ghost use Rattle.std.specs.Prelude.{◌≡◌};
ghost use Rattle.sample.specs.Sample.{begun, latched_by, opens_of, reset_of, start_of, load_left, left_of, byte_step};
ghost use Rattle.sample.specs.Promises.{Steps, Hears, Saves};

use ground::kinds;
use levels::answers;
use part::state::{Control, Device, Lines, Load, Place, State, Timers, Wire};
use wire::Sign;

// Low VCC clears both latches.
fn latched(good: bool, c: Control) -> Control
    ensures { result ≡ latched_by good c }
{
    if good {
        return c;
    }
    Control {
        wel: false,
        rwel: false,
        ..c
    }
}

// Rules 1 and 2.
#[tactic(auto, unfolding(crate::specs::Sample::opens_of))]
pub fn opens(s: State, elapsed: u32, level: u8) -> State
    ensures { result ≡ opens_of elapsed level s }
{
    let good = answers::vcc(level);
    let control = s.device.control;
    let timed = timers::timed(control.stored, elapsed, s.timers);
    State {
        timers: timers::supplied(good, timed),
        device: Device {
            control: latched(good, control),
            ..s.device
        },
        ..s
    }
}

// Rule 3.
#[tactic(auto, unfolding(crate::specs::Sample::reset_of))]
pub fn in_reset(s: State, level: u8) -> State
    ensures { result ≡ reset_of level s }
{
    State {
        wire: Wire {
            lines: Lines {
                scl: answers::scl(level),
                sda: answers::sda(level),
            },
            frame: wire::clean(),
        },
        device: ends::end(s.device),
        load: page::empty(),
        ..s
    }
}

#[tactic(auto, unfolding(crate::specs::Sample::start_of))]
fn start(s: State) -> State
    ensures { result ≡ start_of s }
{
    State {
        timers: Timers {
            watchdog: timers::loaded(s.device.control.stored),
            ..s.timers
        },
        device: ends::start(0 < s.timers.write, s.device),
        load: page::empty(),
        ..s
    }
}

fn began(write: bool, t: Timers) -> Timers
    ensures { result ≡ begun write t }
{
    if !write {
        return t;
    }
    Timers {
        write: timers::WRITE_TIME,
        ..t
    }
}

// Lays the load over its page if any byte came, and answers whether one did.
fn save(array: &mut [u8], place: Place, load: Load) -> bool
    ensures { Saves place load array.old result array.new }
{
    let marked = page::marked(load.marks);
    if marked {
        page::store(array, place, load);
    }
    marked
}

// The load that a stop finds, which may have cut a byte off.
fn load_left(cut: bool, load: Load) -> Load
    ensures { result ≡ load_left cut load }
{
    if cut { page::empty() } else { load }
}

// The state that a stop with so many committed bits acts on.
#[tactic(auto, unfolding(crate::specs::Sample::left_of))]
fn left(s: State, bits: u8) -> State
    ensures { result ≡ left_of bits s }
{
    let cut = ends::cuts_off(s.device.talk.phase, bits);
    State {
        device: Device {
            control: ends::left(cut, s.device.control),
            ..s.device
        },
        load: load_left(cut, s.load),
        ..s
    }
}

// A stop: what its bits left is done.
#[tactic(auto, unfolding(crate::specs::Sample::stop_of))]
fn stop(s: State, bits: u8, wp: bool, array: &mut [u8]) -> State
    ensures { Hears (Sign.Stop bits) wp s array.old result array.new }
{
    let found = left(s, bits);
    let device = found.device;
    let order = control::order_of(wp, device.control);
    let saved = save(array, device.counter, found.load);
    let timed = began(saved, found.timers);
    State {
        timers: began(control::takes_time(order), timed),
        device: ends::stop(order, device),
        load: page::empty(),
        ..found
    }
}

fn byte(s: State, v: u8) -> State
    ensures { result ≡ byte_step v s }
{
    let kind = kinds::kind_of(s.chip.part);
    if device::expects_data(s.device) {
        let takes = device::taken(kind, s.device);
        return State {
            device: device::data(takes, s.device),
            load: device::kept(takes, s.device, v, s.load),
            ..s
        };
    }
    State {
        device: device::byte(kind, s.chip.select, s.device, v),
        ..s
    }
}

// What a sign does.
fn hear(s: State, sign: Sign, wp: bool, array: &mut [u8]) -> State
    ensures { Hears sign wp s array.old result array.new }
{
    match sign {
        Sign::Quiet => s,
        Sign::Start => start(s),
        Sign::Stop(bits) => stop(s, bits, wp, array),
        Sign::Bit => State {
            device: bits::bit(s.device),
            ..s
        },
        Sign::Byte(v) => byte(s, v),
        Sign::Ninth(b) => State {
            device: bits::ninth(kinds::kind_of(s.chip.part), array, b, s.device),
            ..s
        },
    }
}

// The state after a sample; a stop may write the array.
#[tactic(auto, unfolding(crate::specs::Sample::sign_in, crate::specs::Sample::seen_of, crate::specs::Sample::wired_of, crate::specs::Sample::step_of, crate::specs::Sample::array_of))]
pub fn step(s: State, elapsed: u32, level: u8, array: &mut [u8]) -> State
    ensures { Steps elapsed level s array.old result array.new }
{
    let opened = opens(s, elapsed, level);
    if opened.timers.reset {
        return in_reset(opened, level);
    }
    let sda = answers::line(level, opened.device.talk.own);
    let seen = wire::see(opened.wire, answers::scl(level), sda);
    let wired = State {
        wire: seen.wire,
        ..opened
    };
    hear(wired, seen.sign, answers::wp(level), array)
}
