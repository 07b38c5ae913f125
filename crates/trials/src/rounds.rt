// A capture replayed over and over, each time from what the time before left.
ghost use Rattle.std.specs.Prelude.{◌≡◌};
ghost use Rattle.trials.specs.Rounds.{round_of, times_of};

use part::state::State;
use twin::Replayed;

// Replays the rows `times` times, where 0 counts as 1, and answers with the last reply.
pub fn replays(
    times: u32,
    state: State,
    elapsed: &[u32],
    levels: &[u8],
    array: &mut [u8],
    answers: &mut [u8],
) -> Replayed
    ensures { round_of result array.new answers.new ≡ times_of times state elapsed.now levels.now array.old answers.old }
{
    let mut last = twin::replay(state, elapsed, levels, array, answers);
    for _ in 1..times {
        last = twin::replay(last.state, elapsed, levels, array, answers);
    }
    last
}
