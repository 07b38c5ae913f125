// The faults of time lines, of values and of a dump's end.
#![tactic(auto)]

ghost use Rattle.std.specs.Prelude.{◌≡◌, false};
ghost use Rattle.wires.specs.Values.{unfit};
ghost use Rattle.dumps.specs.Reading.{is_between};
ghost use Rattle.dumps.specs.Faults.{fault_if, end_by, late_of, unfinished};
ghost use Rattle.headings.specs.Parts.{number_in};
ghost use Rattle.changes.specs.Parts.{place_of};

use changes::Mode;
use ground::Reason;
use wires::{marks, values};

// A time that is not above the one before; else, at the second time line, a wire that has no value.
pub fn at_time(lines: usize, before: u64, given: u8, time: u64) -> Option<Reason>
    ensures { number_in result ≡ late_of lines before given time }
{
    if lines > 0 && time <= before {
        return Some(Reason::TimeNotAbove);
    }
    (lines == 1 && given != marks::ALL).then_some(Reason::ValueUnfit)
}

// A value that its wire does not take.
pub fn at_value(character: u8, marks: u8) -> Option<Reason>
    ensures { number_in result ≡ fault_if (unfit character marks) 23 }
{
    values::is_unfit(character, marks).then_some(Reason::ValueUnfit)
}

// The end of a dump: inside a section it is malformed; else fewer than two time lines have left a wire without a value.
pub fn at_end(mode: Mode, lines: usize, given: u8) -> Option<Reason>
    ensures { number_in result ≡ end_by false (is_between (place_of mode)) (unfinished lines given) }
{
    match mode {
        Mode::Between => (lines < 2 && given != marks::ALL).then_some(Reason::ValueUnfit),
        Mode::Dumped | Mode::Skipped => Some(Reason::DumpMalformed),
    }
}
