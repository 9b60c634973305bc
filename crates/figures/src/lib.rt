// The checked figures of document 01, and figures for each other sentence of it, and of the requests of document 02, that has a number or an effect: one theorem over a table, in specs/.
// It stands above hpgl and drive, so that one place holds what all their definitions compute.
#![tactic(auto)]
