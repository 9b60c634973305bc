// The calls feed and plot (document 01, "The calls"): take and draw over many bytes, into a list of so many records. Definitions in specs/, laws in proofs/.
// It stands above hpgl, which knows of one byte and one draw at a time. The crate gathering has the loop, feed and machine the calls.
#![tactic(auto)]
