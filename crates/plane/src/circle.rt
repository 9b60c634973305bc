// Circles and arcs: a way from a centre, and the centre, split once, so that no vertex overflows: specs/Circle.antt says what a vertex is, proofs/CircleLaws.antt that the split finds it.

// A way from a centre, in ten-thousandths; a rotated one is scaled.
#[derive(Clone, Copy)]
pub struct Way {
    pub u: i64,
    pub v: i64,
}

// A centre on one axis: base + part / width, with 0 <= part < width, and the span of a way from it.
#[derive(Clone, Copy)]
pub struct Centre {
    pub base: i64,
    pub part: i64,
    pub span: i64,
    pub width: i64,
}
