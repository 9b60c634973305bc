// At which place of the list each row begins, as in the crate saved (Places.antt). The reader has the first three.
pub const LIMITS: usize = 15;

pub const CORNERS: usize = LIMITS + 5;

pub const SCALE: usize = CORNERS + 5;

pub const WINDOW: usize = SCALE + 5;

pub const POSITION: usize = WINDOW + 5;

pub const PEN: usize = POSITION + 5;

pub const POLYGON: usize = PEN + 5;

pub const FIRST: usize = POLYGON + 5;

pub const SAVED: usize = FIRST + 5;

pub const MEMORY: usize = SAVED + 5;

pub const WORK: usize = MEMORY + 5;

pub const ACROSS: usize = WORK + 5;

pub const ALONG: usize = ACROSS + 5;

pub const START: usize = ALONG + 5;

pub const EDGES: usize = START + 5;
