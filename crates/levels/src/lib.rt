// Level bytes in, answer bytes out.
#![tactic(auto)]

pub mod answers;
