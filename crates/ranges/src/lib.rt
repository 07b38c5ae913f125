// No function: a sample leaves a state within its ranges. specs/ says it, proofs/ shows it.
#![tactic(auto)]
