// No function: demand 2, of captures: sample by sample, whole and in pieces. specs/ says it, proofs/ shows it.
#![tactic(auto)]
