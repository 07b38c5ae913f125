// Many samples in one go: all but those in which a timer ends, reset goes on with VCC good, or a stop has
// something to do. The loops run on numbers and bools, so that the processor's registers hold what they
// change; every other sample is left to `sample::steps::step`.
#![tactic(auto)]

mod awake;

ghost use Rattle.std.specs.Prelude.{◌≡◌, ◌≤◌, length};
ghost use Rattle.part.specs.Bench.{part_of};
ghost use Rattle.clocks.specs.Goes.{Goes};

use clocks::Stand;
use levels::answers;
use part::state::State;
use sample::steps;

// Goes on from the sample `from`, answers each sample that it passes, and may stop before any.
pub fn ahead(
    s: State,
    elapsed: &[u32],
    levels: &[u8],
    array: &[u8],
    row: &mut [u8],
    from: usize,
) -> Stand
    requires elapsed_len { length elapsed.now ≡ length levels.now }
    requires row_len { length row.old ≡ length levels.now }
    requires from_in_bounds { from ≤ length levels.now }
    ensures { Goes elapsed.now levels.now from (part_of s array.now) row.old result.at (part_of result.state array.now) row.new }
{
    if levels.len() <= from {
        return Stand { state: s, at: from };
    }
    let level = levels[from];
    if answers::vcc(level) {
        return awake::pass(s, elapsed, levels, array, row, from);
    }
    let first = steps::in_reset(steps::opens(s, elapsed[from], level), level);
    row[from] = answers::answer(first);
    dark::pass(first, elapsed, levels, array, row, from + 1)
}
