// Texts and tests that several programs are made of: numbers in decimal and in hexadecimal, the line of a refusal, and the
// next difference of two rows.
#![tactic(auto)]

pub mod numbers;
pub mod refusals;
pub mod rows;
