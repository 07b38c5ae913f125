// The work of the program `bench`: a case from its header and rows to all that is written for it.
#![tactic(auto)]

pub mod cases;
mod rounds;
mod tries;
