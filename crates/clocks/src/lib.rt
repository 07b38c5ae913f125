// The clocks of a transfer in one go: quiet samples, rises and falls below the eighth bit, on numbers and bools. What two loops
// above share stands here too: the time in which no timer ends, the answer byte, and what going ahead means.
#![tactic(auto)]

pub mod rooms;
pub mod turns;

use part::state::State;

// A state, and the sample that comes next.
#[derive(Clone, Copy)]
pub struct Stand {
    pub state: State,
    pub at: usize,
}
