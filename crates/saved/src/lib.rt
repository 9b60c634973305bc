// Which number of a list stands for which part of a machine's state, and that what is written is read back: definitions in specs/, laws in proofs/.
// The crate saving writes and reads by them.
#![tactic(auto)]
