// What a reader needs to know of bytes and numbers: the class of a byte, and a number as it is read, mark by mark.
#![tactic(auto)]

pub mod bytes;
pub mod number;
