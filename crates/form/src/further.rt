// What a long case says beyond a short one: words 16 to 31 of its header, put into the state.
ghost use Rattle.std.specs.Prelude.{◌≡◌, ◌<◌, min, MatchOption};
ghost use Rattle.std.specs.Option.{ForSome};
ghost use Rattle.form.specs.Further.{phase_of, phase_in, flag_at, flags_in, pending_in, loaded_in, further_in};

use crate::fields::narrow8;
use part::state::{Phase, State};

// The words that count, in their order, each where there is one. 16 and 17 are kept for editions, 18 to
// 22 for counts, and the five after these say nothing.
#[derive(Clone, Copy)]
pub struct Further {
    pub phase: Option<u32>,
    pub flags: Option<u32>,
    pub pending: Option<u32>,
    pub loaded: Option<u32>,
}

// The phases in the order of their numbers, from 0 on.
const PHASES: [Phase; 9] = [
    Phase::Idle,
    Phase::Silent,
    Phase::Slave,
    Phase::High,
    Phase::Low,
    Phase::Data,
    Phase::Register,
    Phase::Send,
    Phase::SendRegister,
];

// The phase of a number; idle where there is none. No `From`: neither side is this crate's type.
#[tactic(auto, unfolding(crate::specs::Further::phase_of))]
fn phase_of(number: u8) -> Phase
    ensures { result ≡ phase_of number }
{
    PHASES.get(number as usize).copied().unwrap_or(Phase::Idle)
}

fn with_phase(number: u8, s: State) -> State
    ensures { result ≡ phase_in number s }
{
    let mut next = s;
    next.device.talk.phase = phase_of(number);
    next
}

// Whether a bit is set, counted from the lowest, bit 0.
fn flag(flags: u8, bit: u32) -> bool
    requires { bit < 8 }
    ensures { result ≡ flag_at bit flags }
{
    (flags >> bit) % 2 == 1
}

fn with_flags(flags: u8, s: State) -> State
    ensures { result ≡ flags_in flags s }
{
    let mut next = s;
    next.device.talk.own = flag(flags, 0);
    next.timers.reset = flag(flags, 1);
    next.timers.low = flag(flags, 2);
    next.device.control.wel = flag(flags, 3);
    next.device.control.rwel = flag(flags, 4);
    next.wire.lines.scl = flag(flags, 5);
    next.wire.lines.sda = flag(flags, 6);
    next.device.control.chosen = flag(flags, 7);
    next
}

fn with_pending(value: u8, s: State) -> State
    ensures { result ≡ pending_in value s }
{
    let mut next = s;
    next.device.control.pending = true;
    next.device.control.value = value;
    next
}

fn with_loaded(value: u8, s: State) -> State
    ensures { result ≡ loaded_in value s }
{
    State {
        load: page::filled(s.load, s.device.counter, value),
        ..s
    }
}

// The state with what a word puts into it, if it is given.
fn put_by_word<F: FnOnce(u8, State) -> State>(word: Option<u32>, s: State, put: F) -> State
    requires { ForSome word (λ w. F.pre put (min w 255) s) }
    ensures { MatchOption word (result ≡ s) (λ w. F.post put (min w 255) s result) }
{
    match word {
        Some(word) => put(narrow8(word), s),
        None => s,
    }
}

// The state with the further words put in.
pub fn put_further(f: Further, s: State) -> State
    ensures { result ≡ further_in f s }
{
    let phased = put_by_word(f.phase, s, with_phase);
    let flagged = put_by_word(f.flags, phased, with_flags);
    let pending = put_by_word(f.pending, flagged, with_pending);
    put_by_word(f.loaded, pending, with_loaded)
}
