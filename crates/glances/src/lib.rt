// The tokens that nearly all of a dump is made of, seen at a glance: behind at most one blank a value of 0 or 1 for a code of one
// character, or a time. What is not so simple is left to those who ask token after token.
#![tactic(auto)]

ghost use Rattle.std.specs.Prelude.{◌≡◌, ◌+◌, ◌/◌, ◌<◌, ◌≤◌, length, slice_index};
ghost use Rattle.tokens.specs.Tokens.{blank};
ghost use Rattle.codes.specs.Codes.{hash};
ghost use Rattle.dumps.specs.Defined.{vars_of};
ghost use Rattle.headings.specs.Parts.{Tabled};
ghost use Rattle.glances.specs.Parts.{SeesMarks, SeesTime, Skims};

use tokens::{Past, is_blank};

// A time that is seen, and its token's length.
#[derive(Clone, Copy, Debug, PartialEq, Eq)]
pub struct Seen {
    pub time: u64,
    pub length: usize,
}

// Half of the character `0`, and of `1`.
pub const ZERO_OR_ONE: u8 = 0x18;

const NOUGHT: u64 = 0x30;

const HIGHEST_TIME: u64 = u32::MAX as u64;

// How many characters behind a hash are looked at: the digits of the highest time, and a blank.
const DIGITS: usize = 11;

// What must be left of the dump: a blank, a hash and so many characters.
pub const FAR: usize = DIGITS + 2;

// Past one line feed or space, if there is one; other blanks are left to `tokens::next`.
pub fn past_blank(dump: &[u8], at: usize, line: usize) -> Past
    requires at_in_bounds { at < length dump.now }
    requires line_le_at { line ≤ at }
    ensures { Skims dump.now at line result }
{
    match dump[at] {
        lines::LINE_FEED => Past {
            at: at + 1,
            line: line + 1,
        },
        tokens::SPACE => Past { at: at + 1, line },
        _ => Past { at, line },
    }
}

// Whether a character parts tokens; most often it is a line feed.
fn ends(character: u8) -> bool
    ensures { result ≡ blank character }
{
    character == lines::LINE_FEED || is_blank(character)
}

// The time whose hash is at `from`, and the length of its token. A digit is told by its difference to the character 0, in one comparison.
// It is inlined, so that the Option costs its two callers no more than a comparison.
#[inline(always)]
pub fn time_at(dump: &[u8], from: usize) -> Option<Seen>
    requires from_in_bounds { from + 12 ≤ length dump.now }
    requires from_value { slice_index dump.now from ≡ hash }
    ensures { SeesTime dump.now from result }
{
    let start = from + 1;
    let mut time: u64 = 0;
    for i in 0..DIGITS {
        let character = dump[start + i];
        let digit = u64::from(character).wrapping_sub(NOUGHT);
        if digit > 9 {
            if i > 0 && time <= HIGHEST_TIME && ends(character) {
                return Some(Seen {
                    time,
                    length: i + 1,
                });
            }
            return None;
        }
        time = time * 10 + digit;
    }
    None
}

// The marks of the value of two characters at `from`, the first of which is 0 or 1, with a blank behind it; none is the empty
// set of marks, 0.
pub fn marks_at(dump: &[u8], table: &[u8], from: usize) -> u8
    requires tabled { Tabled (vars_of dump.now) table.now }
    requires from_in_bounds { from + 12 ≤ length dump.now }
    requires from_value { slice_index dump.now from / 2 ≡ 0x18 }
    ensures { SeesMarks dump.now from result }
{
    let code = dump[from + 1];
    if code > tokens::SPACE && ends(dump[from + 2]) {
        table[usize::from(code)]
    } else {
        0
    }
}
