// Points and boxes, and what is left of a segment in a box: specs/Clip.antt says what that is, specs/Exactness.antt that it is exact, proofs/Nearness.antt what it is good for. The code is the crate clipping.
#![tactic(auto)]

#[derive(Clone, Copy)]
pub struct Point {
    pub x: i64,
    pub y: i64,
}

// A box, edges included. Where left is above right, or bottom above top, it is empty.
#[derive(Clone, Copy)]
pub struct Rect {
    pub left: i64,
    pub bottom: i64,
    pub right: i64,
    pub top: i64,
}
