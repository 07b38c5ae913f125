// No function: what is shown of image files, each claim closed in one record. specs/ says it, proofs/ shows it.
#![tactic(auto)]
