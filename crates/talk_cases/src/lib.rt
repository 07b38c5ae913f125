// No function: cases worked by hand from the paper on reset, on what ends talk and on the register, each computed. specs/ says it,
// proofs/ shows it.
#![tactic(auto)]
