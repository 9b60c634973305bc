// What an instruction of document 01 does when it ends: the rules of the crates settings and shapes by their codes.
#![tactic(auto)]

pub mod events;
