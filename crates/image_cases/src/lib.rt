// No function: the bench cases of image files. specs/ says it, proofs/ shows it.
#![tactic(auto)]
