// The numbers of document 01, as specs/Numbers.antt of the crate hpgl has them (most_angle stands in Bounds.antt of plane, list_full in DrawOff.antt of feeding).

// Refusals. The reader's: unknown in polygon mode, setting out of range.
pub use reader::{OUT_OF_RANGE, UNKNOWN};

// Location out of range, polygon bytes, bad hard limits, take while a segment or a reply waits, list full, a buffer shorter than a reply.
pub const TOO_FAR: u8 = 6;

pub const POLYGON_FULL: u8 = 7;

pub const BAD_LIMITS: u8 = 10;

pub const BUSY: u8 = 20;

pub const LIST_FULL: u8 = 21;

pub const SHORT_BUFFER: u8 = 31;

// The bytes of a polygon, at most; those of PM0 and PM1, of a point, of a changed pen, of a rectangle.
pub const POLYGON_BYTES: u16 = 1024;

pub const MODE_BYTES: u16 = 2;

pub const POINT_BYTES: u16 = 9;

pub const PEN_BYTES: u16 = 2;

pub const RECTANGLE_BYTES: u16 = 49;

// The last pen.
pub const MOST_PEN: i64 = 8;

// The chord angle, in tenths of a degree: its range, and what it is where none is given.
pub const LEAST_ANGLE: i64 = 5;

pub const MOST_ANGLE: i64 = 1200;

pub const DEFAULT_ANGLE: i64 = 50;

// Once round.
pub const WHOLE_TURN: i64 = 3600;

// One and a tenth, in ten-thousandths.
pub const ONE: i64 = 10_000;

pub const TENTH: i64 = 1000;
