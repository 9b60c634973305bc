// The plane of the paper: positions on an axis, circles and arcs. Here are the types; specs/ has the definitions, and their laws beside them in
// proofs/..Laws.antt. The code is the crate placing.
#![tactic(auto)]

pub mod circle;
pub mod position;
