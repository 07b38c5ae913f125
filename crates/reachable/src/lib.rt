// No function: what every state from power-up keeps. specs/ says it, proofs/ shows it.
#![tactic(auto)]
