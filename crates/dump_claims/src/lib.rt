// No function: what is claimed of dumps. specs/ says it, proofs/ shows it.
#![tactic(auto)]
