// One case: power-up, the words put in, and the replays.
ghost use Rattle.trials.specs.Trial.{Tries};

use crate::rounds;
use form::headers::Header;
use form::{fields, headers};
use twin::{Refusal, Replayed};

// What an answer byte holds before any replay writes it.
const BLANK: u8 = 0xEE;

// Powers a part up as the header says and replays the rows, for the last reply with its state; a refused
// power-up leaves the rows alone.
pub fn run(
    header: Header,
    elapsed: &[u32],
    levels: &[u8],
    array: &mut [u8],
    answers: &mut [u8],
) -> Result<Replayed, Refusal>
    ensures { Tries header elapsed.now levels.now array.old answers.old result array.new answers.new }
{
    let part = fields::narrow16(header.part);
    let select = fields::narrow8(header.select);
    let stored = fields::narrow8(header.stored);
    let up = twin::power_up(part, select, stored);
    up.reply?;
    let state = headers::state_of(header, up.state);
    answers.fill(BLANK);
    Ok(rounds::replays(header.times, state, elapsed, levels, array, answers))
}
