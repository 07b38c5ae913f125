// No function: cases worked by hand from the paper, each computed, beside P1 to P11. specs/ says it, proofs/ shows it.
#![tactic(auto)]
