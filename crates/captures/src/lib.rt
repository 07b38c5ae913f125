// Power-up and the replay of one capture in one operation, with no state to hand over.
#![tactic(auto)]

ghost use Rattle.captures.specs.Once.{Captures};

use ground::Reply;

// Replays a capture from power-up on; a refused power-up is the reply, and no sample is looked at.
#[tactic(auto, using(crate::proofs::Captured::captures_none))]
pub fn capture(
    part: u16,
    select: u8,
    stored: u8,
    elapsed: &[u32],
    levels: &[u8],
    array: &mut [u8],
    answers: &mut [u8],
) -> Reply
    ensures { Captures part select stored elapsed.now levels.now array.old answers.old result array.new answers.new }
{
    let powered = twin::power_up(part, select, stored);
    powered.reply?;
    twin::replay(powered.state, elapsed, levels, array, answers).reply
}
