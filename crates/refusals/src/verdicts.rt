// Refusals 1 to 3 of a power-up, and 4 to 10 of a replay; of a capture that asks for no answers all of
// these but 8.
ghost use Rattle.std.specs.Prelude.{◌≡◌, length};
ghost use Rattle.ground.specs.Verdict.{accepted, meant};
ghost use Rattle.refusals.specs.Refusals.{power_of, rows_of, capture_of, judged_of};

use crate::ranges;
use ground::{Reason, Reply, kinds};
use part::state::State;

const MOST_SAMPLES: usize = limits::MOST_SAMPLES;

// The power-up's verdict; an accepted one has seen no sample.
#[tactic(auto, unfolding(ground::specs::Verdict::meant, crate::specs::Refusals::power_of))]
pub fn power(part: u16, select: u8, stored: u8) -> Reply
    ensures { meant result ≡ power_of part select stored }
{
    let kind = kinds::kind_of(part);
    if kind.size == 0 {
        return Err(Reason::PartUnknown.into());
    }
    if select > ranges::MOST_SELECT {
        return Err(Reason::SelectTooHigh.into());
    }
    if !ranges::is_storable(stored) {
        return Err(Reason::StoredHasLatch.into());
    }
    Ok(0)
}

// Refusals 4 to 7, or acceptance with the row length: what is asked of every capture before its samples.
#[tactic(auto, unfolding(ground::specs::Verdict::meant))]
fn rows(s: State, elapsed: &[u32], levels: &[u8], array: &[u8]) -> Reply
    ensures { meant result ≡ rows_of s elapsed.now levels.now array.now (accepted (length levels.now)) }
{
    let kind = kinds::kind_of(s.chip.part);
    if !ranges::in_range(s) {
        return Err(Reason::StateOutOfRange.into());
    }
    if array.len() != usize::from(kind.size) {
        return Err(Reason::ArrayLength.into());
    }
    if elapsed.len() != levels.len() {
        return Err(Reason::RowLengths.into());
    }
    if levels.len() > MOST_SAMPLES {
        return Err(Reason::TooManySamples.into());
    }
    Ok(levels.len())
}

// The verdict on a capture that asks for no answers.
pub fn judge_capture(s: State, elapsed: &[u32], levels: &[u8], array: &[u8]) -> Reply
    ensures { meant result ≡ capture_of s elapsed.now levels.now array.now }
{
    rows(s, elapsed, levels, array)?;
    limits::samples(elapsed, levels)
}

// The replay's verdict.
pub fn judge(s: State, elapsed: &[u32], levels: &[u8], array: &[u8], answers: &[u8]) -> Reply
    ensures { meant result ≡ judged_of s elapsed.now levels.now array.now answers.now }
{
    rows(s, elapsed, levels, array)?;
    if answers.len() != levels.len() {
        return Err(Reason::AnswerLength.into());
    }
    limits::samples(elapsed, levels)
}
