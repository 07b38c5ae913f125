// Samples with VCC low, reset going on.
#![tactic(auto)]

ghost use Rattle.std.specs.Prelude.{◌≡◌, ◌≤◌, length};
ghost use Rattle.part.specs.Bench.{part_of};
ghost use Rattle.clocks.specs.Goes.{Goes};
ghost use Rattle.dark.specs.Dark.{Dark, Dims};

use clocks::{Stand, rooms};
use ground::kinds;
use levels::answers;
use part::state::{Lines, State, Timers, Wire};

// What such a sample changes, after a first one: the write time and the lines.
#[derive(Clone, Copy)]
pub struct Dim {
    pub write: u32,
    pub lines: Lines,
    pub at: usize,
}

// Stops at the first sample with VCC good; `high` is the RESET pin's active level.
fn go_on(high: bool, first: Dim, elapsed: &[u32], levels: &[u8], row: &mut [u8]) -> Dim
    requires elapsed_len { length elapsed.now ≡ length levels.now }
    requires row_len { length row.old ≡ length levels.now }
    requires at_in_bounds { first.at ≤ length levels.now }
    ensures { Dims high elapsed.now levels.now first row.old result row.new }
{
    let mut write = first.write;
    let mut lines = first.lines;
    for i in first.at..levels.len() {
        let level = levels[i];
        if answers::vcc(level) {
            return Dim {
                write,
                lines,
                at: i,
            };
        }
        write = write.saturating_sub(elapsed[i]);
        lines = Lines {
            scl: answers::scl(level),
            sda: answers::sda(level),
        };
        rooms::tell(row, i, true, rooms::base_of(high, true, write));
    }
    Dim {
        write,
        lines,
        at: levels.len(),
    }
}

// Goes on after a first sample with VCC low.
pub fn pass(
    s: State,
    elapsed: &[u32],
    levels: &[u8],
    array: &[u8],
    row: &mut [u8],
    from: usize,
) -> Stand
    requires elapsed_len { length elapsed.now ≡ length levels.now }
    requires row_len { length row.old ≡ length levels.now }
    requires from_in_bounds { from ≤ length levels.now }
    requires dark { Dark s }
    ensures { Goes elapsed.now levels.now from (part_of s array.now) row.old result.at (part_of result.state array.now) row.new }
{
    let kind = kinds::kind_of(s.chip.part);
    let first = Dim {
        write: s.timers.write,
        lines: s.wire.lines,
        at: from,
    };
    let dim = go_on(kind.high, first, elapsed, levels, row);
    let timers = Timers {
        write: dim.write,
        ..s.timers
    };
    let wire = Wire {
        lines: dim.lines,
        ..s.wire
    };
    Stand {
        state: State { timers, wire, ..s },
        at: dim.at,
    }
}
