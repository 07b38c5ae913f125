// How long the rows of a case are, how long a program's room for them is, and whether they fit it. Room is an array of zeros that the
// program makes itself, as `[0; rooms::ROW]`.
#![tactic(auto)]

ghost use Rattle.std.specs.Prelude.{◌≡◌};
ghost use Rattle.rooms.specs.Rooms.{asked_of, fits_of};

use form::headers::Header;
use form::words;

// The largest array.
pub const ARRAY: usize = 16_384;

// The longest row of levels, of elapsed times, or of answers: one more than a capture may have samples.
pub const ROW: usize = 65_537;

// The elapsed words as the input holds them.
pub const RAW: usize = words::WORD * ROW;

// A sample says at most four things.
pub const ENTRIES: usize = 4 * ROW;

// How long the rows of a case are, or the room for them.
#[derive(Clone, Copy)]
pub struct Lengths {
    pub array: usize,
    pub raw: usize,
    pub elapsed: usize,
    pub levels: usize,
    pub answers: usize,
}

// What the header of a case asks for.
pub fn asked(header: Header) -> Lengths
    ensures { result ≡ asked_of header }
{
    let elapsed = header.elapsed as usize;
    Lengths {
        array: header.array as usize,
        raw: elapsed * words::WORD,
        elapsed,
        levels: header.levels as usize,
        answers: header.answers as usize,
    }
}

// Whether no row is longer than its room.
pub fn fits(case: Lengths, room: Lengths) -> bool
    ensures { result ≡ fits_of case room }
{
    case.array <= room.array
        && case.raw <= room.raw
        && case.elapsed <= room.elapsed
        && case.levels <= room.levels
        && case.answers <= room.answers
}
