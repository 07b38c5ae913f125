// A token behind the definitions of a dump: a time, a value, or what else may stand there.
#![tactic(auto)]

ghost use Rattle.std.specs.Prelude.{◌≡◌, ◌<◌, length, get_or, drop};
ghost use Rattle.wires.specs.Wires.{marks_of};
ghost use Rattle.wires.specs.Times.{time_of};
ghost use Rattle.dumps.specs.Reading.{says_of, time_says, value_says};
ghost use Rattle.dumps.specs.Defined.{vars_of, body_at};
ghost use Rattle.headings.specs.Parts.{Tabled};
ghost use Rattle.changes.specs.Parts.{change_meant, place_of, mode_of, moved_by};

use headings::search;
use sections::{Place, Stage, Step};
use wires::{times, values};

// Outside every section, among dumped values, or in a comment.
#[derive(Clone, Copy, Debug, PartialEq, Eq)]
pub enum Mode {
    Between,
    Dumped,
    Skipped,
}

// What a token says; a malformed one says nothing.
#[derive(Clone, Copy, Debug, PartialEq, Eq)]
pub enum Change {
    Time(u64),
    Value { character: u8, marks: u8 },
    Moves(Mode),
}

// A time line.
fn time(digits: &[u8]) -> Option<Change>
    ensures { change_meant result ≡ time_says (time_of digits.now) }
{
    let time = times::time_of(digits)?;
    Some(Change::Time(u64::from(time)))
}

// A value for the wires of a code.
fn value(dump: &[u8], table: &[u8], begun: bool, word: &[u8]) -> Option<Change>
    requires tabled { Tabled (vars_of dump.now) table.now }
    requires word_nonzero { 0 < length word.now }
    ensures { change_meant result ≡ value_says begun (marks_of (vars_of dump.now) (drop 1 word.now)) (get_or word.now 0 0) }
{
    let marks = search::marks_of(dump, table, &word[1..]);
    (begun && marks > 0).then_some(Change::Value {
        character: word[0],
        marks,
    })
}

// The mode of a place; no further place is met behind the definitions.
fn mode_of(place: Place) -> Mode
    ensures { result ≡ mode_of place }
{
    match place {
        Place::Skipped => Mode::Skipped,
        Place::Values => Mode::Dumped,
        _ => Mode::Between,
    }
}

// A section's token behind the definitions.
fn moved(step: Option<Step>) -> Option<Change>
    ensures { result ≡ moved_by step }
{
    match step {
        Some(Step::Moves { place, .. }) => Some(Change::Moves(mode_of(place))),
        _ => None,
    }
}

// What a token says, by the mode and whether a time line has come.
pub fn change_of(dump: &[u8], table: &[u8], mode: Mode, begun: bool, word: &[u8]) -> Option<Change>
    requires tabled { Tabled (vars_of dump.now) table.now }
    requires word_nonzero { 0 < length word.now }
    ensures { change_meant result ≡ says_of (body_at dump.now (place_of mode) begun) word.now }
{
    let first = word[0];
    match mode {
        Mode::Between if first == times::HASH => time(&word[1..]),
        Mode::Between if values::is_value(first) => value(dump, table, begun, word),
        Mode::Between => moved(sections::open(Stage::Body, word)),
        Mode::Dumped if values::is_value(first) => value(dump, table, begun, word),
        Mode::Dumped => moved(sections::hear(Stage::Body, Place::Values, word)),
        Mode::Skipped => moved(sections::hear(Stage::Body, Place::Skipped, word)),
    }
}
