// No function: demand 3 is not empty, by computed runs. specs/ says it, proofs/ shows it.
#![tactic(auto)]
