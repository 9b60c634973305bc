// The store of edges and the work that waits: what an action leaves there, which segment waits first, and what is drawn of it.
#![tactic(auto)]

pub mod drawing;
pub mod storing;
