// No function: captures run on a part, with every rule opened so that they can be computed. specs/ says it, proofs/ shows it.
#![tactic(auto)]
