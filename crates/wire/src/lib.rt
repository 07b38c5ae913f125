// Two lines become signs. Nothing here knows what a byte means.
#![tactic(auto)]

ghost use Rattle.std.specs.Prelude.{◌≡◌};
ghost use Rattle.wire.specs.Sign.{pushed, clean_frame, fall_sign, fall_frame, sign_of, wire_of};

use ground::cases;
use part::state::{Frame, Lines, Wire};

// What a sample shows on the wire: nothing, a start, a stop with the bits committed when it came, a
// bit committed below the eighth, a byte at its eighth fall, or the ninth bit at its fall.
#[derive(Clone, Copy)]
pub enum Sign {
    Quiet,
    Start,
    Stop(u8),
    Bit,
    Byte(u8),
    Ninth(bool),
}

// A sign, and the wire after it.
#[derive(Clone, Copy)]
pub struct Seen {
    pub sign: Sign,
    pub wire: Wire,
}

// A value with one bit more, the newest lowest.
pub fn push(shift: u8, bit: bool) -> u8
    ensures { result ≡ pushed shift bit }
{
    shift.wrapping_mul(2) + cases::worth(bit, 1)
}

// No bit taken, none committed.
pub fn clean() -> Frame
    ensures { result ≡ clean_frame }
{
    Frame {
        held: false,
        bit: false,
        bits: 0,
        shift: 0,
    }
}

// What a fall of SCL commits.
#[tactic(auto, unfolding(crate::specs::Sign::fall_sign))]
fn fall_sign(f: Frame) -> Sign
    ensures { result ≡ fall_sign f }
{
    if !f.held {
        return Sign::Quiet;
    }
    match f.bits {
        0..=6 => Sign::Bit,
        7 => Sign::Byte(push(f.shift, f.bit)),
        _ => Sign::Ninth(f.bit),
    }
}

// The frame after a fall of SCL.
#[tactic(auto, unfolding(crate::specs::Sign::fall_frame))]
fn fall_frame(f: Frame) -> Frame
    ensures { result ≡ fall_frame f }
{
    if !f.held {
        return f;
    }
    if f.bits < 8 {
        return Frame {
            bits: f.bits + 1,
            shift: push(f.shift, f.bit),
            ..clean()
        };
    }
    clean()
}

// The sign that a sample's SCL and SDA line give, and the wire after it.
#[tactic(auto, unfolding(crate::specs::Sign::sign_of, crate::specs::Sign::wire_of))]
pub fn see(w: Wire, scl: bool, sda: bool) -> Seen
    ensures { result ≡ record { sign = sign_of w scl sda; wire = wire_of w scl sda } }
{
    let lines = Lines { scl, sda };
    let frame = w.frame;
    match (w.lines.scl, scl) {
        (true, true) => match (w.lines.sda, sda) {
            (true, false) => cut(Sign::Start, lines),
            (false, true) => cut(Sign::Stop(frame.bits), lines),
            _ => quiet(lines, frame),
        },
        (true, false) => Seen {
            sign: fall_sign(frame),
            wire: Wire {
                lines,
                frame: fall_frame(frame),
            },
        },
        (false, true) => quiet(
            lines,
            Frame {
                held: true,
                bit: sda,
                ..frame
            },
        ),
        (false, false) => quiet(lines, frame),
    }
}

fn quiet(lines: Lines, frame: Frame) -> Seen
    ensures { result ≡ record { sign = Sign.Quiet; wire = record { lines = lines; frame = frame } } }
{
    Seen {
        sign: Sign::Quiet,
        wire: Wire { lines, frame },
    }
}

fn cut(sign: Sign, lines: Lines) -> Seen
    ensures { result ≡ record { sign = sign; wire = record { lines = lines; frame = clean_frame } } }
{
    Seen {
        sign,
        wire: Wire {
            lines,
            frame: clean(),
        },
    }
}
