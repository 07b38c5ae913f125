// A capture as a list of what went over the bus: starts, stops, bytes, ninth bits, write cycles and
// resets, each a number with the place of its sample.
#![tactic(auto)]

ghost use Rattle.std.specs.Prelude.{◌≡◌, length};
ghost use Rattle.transfers.specs.Promises.{Walks, Lists};

pub use entries::tags;
use part::state::State;
use power::Replayed;
use refusals::verdicts;
use sample::steps;

// Accepted with the count of entries, or refused with number and place; the state beside it.
pub type Listed = Replayed;

// Sample by sample, over rows of one length: what each says goes over `entries`, as far as there is
// room.
fn walk(
    state: State,
    elapsed: &[u32],
    levels: &[u8],
    array: &mut [u8],
    entries: &mut [u64],
) -> Listed
    requires { length elapsed.now ≡ length levels.now }
    ensures { Walks state elapsed.now levels.now array.old entries.old result array.new entries.new }
{
    let mut now = state;
    let mut count = 0;
    for (place, (time, level)) in elapsed.iter().zip(levels).enumerate() {
        let next = steps::step(now, *time, *level, array);
        count = said::put_sample(now, next, *time, *level, place, entries, count);
        now = next;
    }
    Listed {
        reply: Ok(count),
        state: now,
    }
}

// Lists a capture: the part goes on from `state` and `array`, and what it says is laid over `entries`,
// as far as there is room; the count tells how many entries there are. A refusal, by the numbers of a
// replay but for that of the answer row, changes nothing that was lent and hands the same state back.
pub fn list(
    state: State,
    elapsed: &[u32],
    levels: &[u8],
    array: &mut [u8],
    entries: &mut [u64],
) -> Listed
    ensures { Lists state elapsed.now levels.now array.old entries.old result array.new entries.new }
{
    match verdicts::judge_capture(state, elapsed, levels, array) {
        Ok(_) => walk(state, elapsed, levels, array, entries),
        Err(refusal) => Listed {
            reply: Err(refusal),
            state,
        },
    }
}
