// No function: the waveforms of what a host does on the bus, as captures. specs/ says it, proofs/ shows it.
#![tactic(auto)]
