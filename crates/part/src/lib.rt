// What the state of the part holds. The leaves that work on it stand in crates of their own.
#![tactic(auto)]

pub mod state;
