// The words of a reply, as bytes.
#![tactic(auto)]

ghost use Rattle.std.specs.Prelude.{◌≡◌, min};
ghost use Rattle.ground.specs.Verdict.{refused, meant};
ghost use Rattle.form.specs.Words.{bytes_of};
ghost use Rattle.replies.specs.Reply.{opening_of, closing_of, Closes, EndsReply};

use form::words;
use ground::Reply;
use part::state::State;

// A place fits a word in every reply that can come; were it wider, it would count as the largest word.
fn capped(place: usize) -> u32
    ensures { result ≡ min place 4294967295 }
{
    u32::try_from(place).unwrap_or(u32::MAX)
}

#[tactic(auto, unfolding(crate::specs::Reply::opening_of))]
fn refusal_words(number: u8, place: usize) -> [u32; 2]
    ensures { result ≡ opening_of (refused number place) }
{
    [u32::from(number), capped(place)]
}

#[tactic(auto, unfolding(ground::specs::Verdict::meant, crate::specs::Reply::opening_of))]
fn opening_words(reply: Reply) -> [u32; 2]
    ensures { result ≡ opening_of (meant reply) }
{
    match reply {
        Ok(count) => [0, capped(count)],
        Err(refusal) => refusal_words(refusal.reason.into(), refusal.place),
    }
}

// The refusal's number, 0 for acceptance, and the place or the count of samples.
pub fn opening(reply: Reply) -> [u8; 8]
    ensures { result ≡ bytes_of (opening_of (meant reply)) }
{
    let mut bytes = [0; 8];
    words::encode(&opening_words(reply), &mut bytes);
    bytes
}

// The same of a refusal by its number, whatever it is.
pub fn refusal_opening(number: u8, place: usize) -> [u8; 8]
    ensures { result ≡ bytes_of (opening_of (refused number place)) }
{
    let mut bytes = [0; 8];
    words::encode(&refusal_words(number, place), &mut bytes);
    bytes
}

#[tactic(auto, unfolding(crate::specs::Reply::closing_of))]
fn closing_words(register: u8, state: State) -> [u32; 8]
    ensures { result ≡ closing_of register state }
{
    let timers = state.timers;
    [
        u32::from(register),
        u32::from(state.device.counter.0),
        timers.write,
        u32::from(timers.reset),
        timers.hold,
        u32::from(timers.low),
        u32::from(timers.watchdog.running),
        timers.watchdog.left,
    ]
}

// What the part shows after the last replay.
pub fn closing(state: State) -> [u8; 32]
    ensures { Closes state result }
{
    let words = closing_words(power::register(state), state);
    let mut bytes = [0; 32];
    words::encode(&words, &mut bytes);
    bytes
}

// What a long case is told beyond the closing words: how many words more there are, and these. So far
// there are none, whatever the state.
#[tactic(auto, unfolding(crate::specs::Reply::ending_of))]
pub fn ending(long: bool, state: State) -> Option<[u8; 4]>
    ensures { EndsReply long state result }
{
    long.then_some(0u32.to_le_bytes())
}
