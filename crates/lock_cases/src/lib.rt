// No function: the bench cases of the block lock. specs/ says it, proofs/ shows it.
#![tactic(auto)]
