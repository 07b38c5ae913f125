// No function: an image that was written reads back the same, in any sound form of record. specs/ says it, proofs/ shows it.
#![tactic(auto)]
