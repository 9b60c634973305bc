// A whole input through the machine to its lines, and the edge where it is read and they are handed over. specs/Ran.antt has what a run comes to.
#![tactic(auto)]

mod edge;
pub mod files;
