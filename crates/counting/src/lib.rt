// What survey counts: segments and lengths, names of what is refused, refusals in groups, and whether a drawing is fit to paint.
#![tactic(auto)]

pub mod names;
pub mod refusals;
pub mod tally;
pub mod verdict;
