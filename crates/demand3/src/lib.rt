// No function: demand 3: two parts whose arrays differ at one address. specs/ says it, proofs/ shows it.
#![tactic(auto)]
