// No function: what the twin offers to those who replay piece after piece. An accepted replay leaves a part that takes the next piece, and
// the pieces joined are one run. proofs/ shows it; nothing there asks what one sample does.
#![tactic(auto)]
