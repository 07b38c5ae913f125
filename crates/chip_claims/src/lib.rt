// No function: what is shown of the part and its captures, each claim closed in one record. specs/ says it, proofs/ shows it.
#![tactic(auto)]
