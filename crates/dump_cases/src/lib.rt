// No function: dumps that were worked by hand, and what the verdict on a dump is. specs/ says it, proofs/ shows it.
#![tactic(auto)]
