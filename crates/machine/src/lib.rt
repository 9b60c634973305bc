// The machine of document 01. The crate hpgl says what each call does; here it is done (calls.rt).
#![tactic(auto)]

ghost use Rattle.hpgl.specs.Valid.{Usable};
ghost use Rattle.machine.specs.UsableOnce.{usable-once};

use hpgl::State;
pub use hpgl::{Drawn, Look, Segment, Stroke};

mod calls;

// A machine comes only from the calls below, so that each of them may be made of it.
#[derive(Clone, Copy)]
pub struct Machine {
    state: State,
    ghost usable: { Usable state } by { usable-once state },
}

// What the calls answer: the machine, with 01's number (0 for none), or with what was drawn.
#[derive(Clone, Copy)]
pub struct Started {
    pub machine: Machine,
    pub number: u8,
}

#[derive(Clone, Copy)]
pub struct Taken {
    pub machine: Machine,
    pub number: u8,
}

#[derive(Clone, Copy)]
pub struct Worked {
    pub machine: Machine,
    pub drawn: Drawn,
}

// The machine after a fetch, how many bytes were written, and 02's number.
#[derive(Clone, Copy)]
pub struct Fetched {
    pub machine: Machine,
    pub length: usize,
    pub number: u8,
}

// How far a run of bytes went: the place of the next byte, and the last one's number.
#[derive(Clone, Copy)]
pub struct Ran {
    pub machine: Machine,
    pub at: usize,
    pub number: u8,
}

// How far a feed or a plot went: the place of the next byte, how many records are stored, and 01's number.
#[derive(Clone, Copy)]
pub struct Gathered {
    pub machine: Machine,
    pub at: usize,
    pub stored: usize,
    pub number: u8,
}
