// A capture, with the part's answers to it, as a value change dump (IEEE 1364): what the dump begins with, and the lines of one
// sample after the other.
#![tactic(auto)]

mod values;
mod wires;

ghost use Rattle.std.specs.Prelude.{◌≡◌, ◌&&◌, eqb};
ghost use Rattle.drawing.specs.Header.{header_text};
ghost use Rattle.drawing.specs.Drawing.{apart_by, time_of, next_of, nothing_drawn, Draws};

use texts::numbers;

// The longest text of a sample: a time line of 22 bytes, and eight values of three.
pub const ROOM: usize = 46;

const HASH: u8 = b'#';

// What is drawn so far: whether there was a sample, and of the last one its time, the part's own SDA level after it, and the levels
// of the eight wires. Any may be given, also a time and levels with no sample, so they are no Option.
#[derive(Clone, Copy, Debug, PartialEq, Eq)]
pub struct Drawn {
    pub begun: bool,
    pub time: u64,
    pub own: bool,
    pub levels: [bool; 8],
}

// What is drawn with one sample more, and the length of its text.
#[derive(Clone, Copy, Debug, PartialEq, Eq)]
pub struct Put {
    pub drawn: Drawn,
    pub length: usize,
}

// What a dump begins with.
pub fn header() -> [u8; 303]
    ensures { result ≡ header_text }
{
    *b"$version Qillampu trace $end
$timescale 1 us $end
$scope module qillampu $end
$var wire 1 a SCL $end
$var wire 1 b SDA $end
$var wire 1 c WP $end
$var wire 1 d VCC $end
$var wire 1 e OWN $end
$var wire 1 f LINE $end
$var wire 1 g RESET $end
$var wire 1 h WRITING $end
$upscope $end
$enddefinitions $end
"
}

// Nothing drawn yet, of a part with that level on SDA.
pub fn nothing(own: bool) -> Drawn
    ensures { result ≡ nothing_drawn own }
{
    Drawn {
        begun: false,
        time: 0,
        own,
        levels: [false; 8],
    }
}

// How far a sample is drawn from the one before. A dump cannot hold two samples of one time, so a later sample with nothing elapsed
// is drawn a microsecond later.
fn apart(begun: bool, elapsed: u32) -> u64
    ensures { result ≡ apart_by (begun && eqb elapsed 0) elapsed }
{
    if begun & (elapsed == 0) {
        1
    } else {
        u64::from(elapsed)
    }
}

// The time of the next sample. It may pass 4,294,967,295, the last that request 2026-03 lets a dump have: viewers of dumps take it.
// Beyond 64 bits no run comes.
fn time(drawn: Drawn, elapsed: u32) -> u64
    ensures { result ≡ time_of drawn elapsed }
{
    drawn.time.saturating_add(apart(drawn.begun, elapsed))
}

fn next(drawn: Drawn, elapsed: u32, level: u8, answer: u8) -> Drawn
    ensures { result ≡ next_of drawn elapsed level answer }
{
    let levels = wires::levels(drawn.own, level, answer);
    Drawn {
        begun: true,
        time: time(drawn, elapsed),
        own: wires::own_in(answer),
        levels,
    }
}

// Lays the text of one sample over the start of `out`: its time, then the values that changed.
pub fn put_sample(drawn: Drawn, elapsed: u32, level: u8, answer: u8, out: &mut [u8; ROOM]) -> Put
    ensures { Draws drawn elapsed level answer out.old result out.new }
{
    let now = next(drawn, elapsed, level, answer);
    let before = drawn.levels;
    let levels = now.levels;
    out[0] = HASH;
    let end = numbers::put_decimal(now.time, out, 1);
    out[end] = lines::LINE_FEED;
    let length = values::put(drawn.begun, before, levels, out, end + 1);
    Put { drawn: now, length }
}
