// No function: the bench cases of captures, each computed. specs/ says it, proofs/ shows it.
#![tactic(auto)]
