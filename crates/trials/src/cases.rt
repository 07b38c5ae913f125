// A case from its header and rows to all that is written for it.
ghost use Rattle.trials.specs.Case.{Answers};

use crate::tries;
use form::headers::Header;

// What a reply says beside the answer row and the array: the bytes that open it and, where the case ran,
// so that those two rows follow, the bytes behind them.
#[derive(Clone, Copy)]
pub struct Said {
    pub opening: [u8; 8],
    pub rest: Option<Rest>,
}

// The bytes that close a reply behind its rows, and those that end it, if there are any.
#[derive(Clone, Copy)]
pub struct Rest {
    pub closing: [u8; 32],
    pub tail: Option<[u8; 4]>,
}

// Powers up and replays as the header says, and puts the reply's words into bytes.
pub fn answer(
    header: Header,
    elapsed: &[u32],
    levels: &[u8],
    array: &mut [u8],
    answers: &mut [u8],
) -> Said
    ensures { Answers header elapsed.now levels.now array.old answers.old result array.new answers.new }
{
    match tries::run(header, elapsed, levels, array, answers) {
        Ok(last) => Said {
            opening: replies::opening(last.reply),
            rest: Some(Rest {
                closing: replies::closing(last.state),
                tail: replies::ending(header.long, last.state),
            }),
        },
        Err(refusal) => Said {
            opening: replies::opening(Err(refusal)),
            rest: None,
        },
    }
}
