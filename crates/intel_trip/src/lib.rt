// No function: Intel's form keeps the laws of the round trip. proofs/ shows it.
#![tactic(auto)]
