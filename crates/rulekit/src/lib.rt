// What the rules of the instructions share: 01's numbers, a state with one part changed, places on the sheet, the hand, and how a rule answers.
#![tactic(auto)]

pub mod acts;
pub mod changes;
pub mod hand;
pub mod numbers;
pub mod places;
