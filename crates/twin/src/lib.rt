// The twin of the part. Its public operations are the four functions brought out here, with the types
// that they answer in: none has a `requires`, and each says for every input its whole reply and what
// each lent row holds at the end.
#![tactic(auto)]

mod replays;

pub use ground::kinds::size_of;
pub use ground::{Reason, Refusal, Reply};
pub use power::{Replayed, power_up, register};
pub use replays::replay;
