// No function: four steps that bend a rule each break demand 3. specs/ says it, proofs/ shows it.
#![tactic(auto)]
