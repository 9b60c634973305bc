// Positions on an axis, circles and arcs, in code: each module as the definitions of its name in the crate plane say.
#![tactic(auto)]

pub mod arc;
pub mod circle;
pub mod position;
