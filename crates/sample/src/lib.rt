// One sample: what it does to the state and the array.
#![tactic(auto)]

pub mod steps;
