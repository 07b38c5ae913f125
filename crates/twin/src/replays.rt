// Replay: refusals first, then sample by sample.
ghost use Rattle.std.specs.Prelude.{◌≡◌, length};
ghost use Rattle.twin.specs.Promises.{Runs, Replays};

use levels::answers;
use part::state::State;
use power::Replayed;
use refusals::verdicts;
use sample::steps;

// Sample by sample, over rows of one length.
fn run(s: State, elapsed: &[u32], levels: &[u8], array: &mut [u8], row: &mut [u8]) -> State
    requires elapsed_len { length elapsed.now ≡ length levels.now }
    requires row_len { length row.old ≡ length levels.now }
    ensures { Runs s elapsed.now levels.now array.old result array.new row.new }
{
    let mut state = s;
    let mut i = 0;
    // A `while`: `ahead` moves the index by as many samples as it passes.
    while i < levels.len() {
        let stand = plain::ahead(state, elapsed, levels, array, row, i);
        state = stand.state;
        i = stand.at;
        if i < levels.len() {
            state = steps::step(state, elapsed[i], levels[i], array);
            row[i] = answers::answer(state);
            i += 1;
        }
    }
    state
}

// Replays a capture: the part goes on from `state` and `array`, and an answer byte a sample goes into
// `answers`. A refusal changes nothing that was lent and hands the same state back.
pub fn replay(
    state: State,
    elapsed: &[u32],
    levels: &[u8],
    array: &mut [u8],
    answers: &mut [u8],
) -> Replayed
    ensures { Replays state elapsed.now levels.now array.old answers.old result array.new answers.new }
{
    let reply = verdicts::judge(state, elapsed, levels, array, answers);
    let state = match reply {
        Ok(_) => run(state, elapsed, levels, array, answers),
        Err(_) => state,
    };
    Replayed { reply, state }
}
