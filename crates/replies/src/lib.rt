// OA, OP, OW, OH and OE: what each tells (document 02, CR 5); and a reply as text in a lent buffer.
#![tactic(auto)]

pub mod telling;
pub mod writing;
