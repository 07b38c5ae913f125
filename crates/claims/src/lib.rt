// No function: what is shown of the rules themselves. specs/ says it, proofs/ shows it.
#![tactic(auto)]
