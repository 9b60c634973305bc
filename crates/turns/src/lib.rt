// The four turns of the paper, of points and of boxes, and the limits, for which the window turns along.
// Each module has its definitions in specs/ under its own name, and their laws beside them in specs/..Laws.antt.
#![tactic(auto)]

pub mod limits;
pub mod turn;
