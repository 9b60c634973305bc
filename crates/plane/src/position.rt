// Position on one axis: the exact one, as base and offset, and the location, which is its nearest whole number.

// The scale of an axis. Absolute positions count from `least`, which stands at `origin`.
#[derive(Clone, Copy)]
pub struct Axis {
    pub origin: i64,
    pub least: i64,
    pub span: i64,
    pub width: i64,
}

// An exact position on an axis: base + offset * span / width.
#[derive(Clone, Copy)]
pub struct ExactPosition {
    pub base: i64,
    pub offset: i64,
}
