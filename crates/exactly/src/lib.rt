// No function: for each refusal number, exactly when it is the reply. specs/ says it, proofs/ shows it.
#![tactic(auto)]
