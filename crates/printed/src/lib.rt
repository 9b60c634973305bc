#![tactic(auto)]

// What the program strokes prints (document 01, at the end of "Checked figures"): the lines of a machine that is given bytes. Definitions and laws, in specs/.
// The crates plotting and delivery have the code.
