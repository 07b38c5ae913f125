// What is refused, with its number and place: the verdicts on a power-up and on a replay.
#![tactic(auto)]

pub mod ranges;
pub mod verdicts;
