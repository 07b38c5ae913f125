// The clocks of a byte: samples that show no more than a bit below the eighth.
ghost use Rattle.std.specs.Prelude.{◌≡◌, ◌≤◌, length};
ghost use Rattle.clocks.specs.Clocks.{wire_at, clocks_of, fallen_at, cut_at, turn_by, seen_at, turn_of, Comes, Turned};
ghost use Rattle.clocks.specs.Stands.{Clocked};

use crate::rooms;
use levels::answers;
use part::state::{Frame, Lines, Talk, Wire};

// Bits of a byte, and those before its last one.
const BITS: u8 = 8;

const BEFORE_LAST: u8 = 7;

// What a clock changes, side by side: the time in which no timer ends, the lines, the frame, and the talk
// but for its phase. A held bit stays two fields, as in the state that these come from and go back to.
#[derive(Clone, Copy)]
pub struct Clocks {
    pub room: u32,
    pub scl: bool,
    pub sda: bool,
    pub held: bool,
    pub bit: bool,
    pub bits: u8,
    pub shift: u8,
    pub high: u8,
    pub out: u8,
    pub own: bool,
}

// What a sample is to the loops: a plain clock, an eighth or a ninth fall, a start, a stop, or one that
// they leave alone.
#[derive(Clone, Copy)]
pub enum Turn {
    Plain,
    Eighth,
    Ninth,
    Start,
    Stop,
    Other,
}

// The clocks where a loop stopped, and the sample before which it did.
#[derive(Clone, Copy)]
pub struct Ran {
    pub now: Clocks,
    pub at: usize,
}

pub fn clocks_of(wire: Wire, talk: Talk, room: u32) -> Clocks
    ensures { result ≡ clocks_of wire talk room }
{
    let lines = wire.lines;
    let frame = wire.frame;
    Clocks {
        room,
        scl: lines.scl,
        sda: lines.sda,
        held: frame.held,
        bit: frame.bit,
        bits: frame.bits,
        shift: frame.shift,
        high: talk.high,
        out: talk.out,
        own: talk.own,
    }
}

impl From<Clocks> for Wire {
    ghost from_gives = { λ c wire. wire ≡ wire_at c };

    fn from(c: Clocks) -> Wire {
        Wire {
            lines: Lines {
                scl: c.scl,
                sda: c.sda,
            },
            frame: Frame {
                held: c.held,
                bit: c.bit,
                bits: c.bits,
                shift: c.shift,
            },
        }
    }
}

// The clocks after an eighth or a ninth fall that left this talk.
pub fn fallen(c: Clocks, talk: Talk, elapsed: u32, level: u8) -> Clocks
    requires { elapsed ≤ c.room }
    ensures { result ≡ fallen_at c talk elapsed level }
{
    let fell = Clocks {
        room: c.room - elapsed,
        scl: false,
        sda: answers::line(level, c.own),
        held: false,
        bit: false,
        bits: 0,
        shift: 0,
        high: talk.high,
        out: talk.out,
        own: talk.own,
    };
    if c.bits == BEFORE_LAST {
        return Clocks {
            bits: BITS,
            shift: wire::push(c.shift, c.bit),
            ..fell
        };
    }
    fell
}

// The clocks after a start or a stop: nothing is said.
pub fn cut(sda: bool, room: u32) -> Clocks
    ensures { result ≡ cut_at sda room }
{
    Clocks {
        room,
        scl: true,
        sda,
        held: false,
        bit: false,
        bits: 0,
        shift: 0,
        high: 0,
        out: 0,
        own: true,
    }
}

// What a sample's lines say.
#[tactic(auto, unfolding(wire::specs::Sign::sign_of, wire::specs::Sign::fall_sign))]
fn told(now: Clocks, level: u8) -> Turn
    ensures { result ≡ turn_by (seen_at now level) }
{
    let clock = answers::scl(level);
    let data = answers::line(level, now.own);
    match (now.scl, clock) {
        (true, true) => match (now.sda, data) {
            (true, false) => Turn::Start,
            (false, true) => Turn::Stop,
            _ => Turn::Plain,
        },
        (true, false) if now.held => {
            if now.bits < BEFORE_LAST {
                Turn::Plain
            } else if now.bits == BEFORE_LAST {
                Turn::Eighth
            } else {
                Turn::Ninth
            }
        }
        _ => Turn::Plain,
    }
}

// What a sample is to the loops.
#[tactic(auto, unfolding(crate::specs::Clocks::turn_of))]
pub fn turn_of(now: Clocks, elapsed: u32, level: u8) -> Turn
    ensures { result ≡ turn_of now elapsed level }
{
    if elapsed < now.room && answers::vcc(level) {
        told(now, level)
    } else {
        Turn::Other
    }
}

// The clocks after a plain sample.
fn turned(now: Clocks, sends: bool, elapsed: u32, level: u8) -> Clocks
    requires { Comes now elapsed level Turn.Plain }
    ensures { Turned now sends elapsed level result }
{
    let clock = answers::scl(level);
    let data = answers::line(level, now.own);
    // One copy, changed in place where the branches need it: struct update, or a match on both clocks, costs the loops more
    // instructions a sample.
    let mut next = now;
    next.room = now.room - elapsed;
    next.scl = clock;
    next.sda = data;
    if clock {
        if now.scl {
            return next;
        }
        next.held = true;
        next.bit = data;
        return next;
    }
    if now.scl {
        if now.held {
            next.held = false;
            next.bit = false;
            next.bits = now.bits + 1;
            next.shift = wire::push(now.shift, now.bit);
            if sends {
                next.high = 0;
                next.out = bits::shifted(now.out);
                next.own = bits::top(next.out);
                return next;
            }
            return next;
        }
        return next;
    }
    next
}

// Stops before the first sample that is not plain.
pub fn pass(
    first: Clocks,
    sends: bool,
    base: u8,
    elapsed: &[u32],
    levels: &[u8],
    row: &mut [u8],
    from: usize,
) -> Ran
    requires elapsed_len { length elapsed.now ≡ length levels.now }
    requires row_len { length row.old ≡ length levels.now }
    requires base_bound { base ≤ 6 }
    ensures { Clocked sends base elapsed.now levels.now from first row.old result.at result.now row.new }
{
    let mut now = first;
    let mut at = from;
    for i in from..levels.len() {
        let spent = elapsed[i];
        let level = levels[i];
        let turn = turn_of(now, spent, level);
        let Turn::Plain = turn else {
            break;
        };
        now = turned(now, sends, spent, level);
        at = rooms::tell(row, i, now.own, base);
    }
    Ran { now, at }
}
