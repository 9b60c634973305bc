// The reader of bytes: what each byte of an instruction stream means. It knows nothing of paper, pens or limits. Here are its types; specs/ says what it does, and the code is the crate reading.
#![tactic(auto)]

use numerals::number::Number;

// The causes of a refusal that the reader finds: an unknown byte or name, the count of numbers, a number out of range.
// Numbers and no enum: they are what take answers to C, and what OE tells.
pub const UNKNOWN: u8 = 1;

pub const WRONG_COUNT: u8 = 2;

pub const OUT_OF_RANGE: u8 = 3;

// A pair of numbers, in ten-thousandths.
#[derive(Clone, Copy)]
pub struct Coordinates {
    pub x: i64,
    pub y: i64,
}

// An instruction's numbers, in ten-thousandths, and how many there are. Of an instruction that takes pairs only the first
// number of an open pair is kept.
// Four numbers and no array: each is a number by itself to the rules (hpgl/specs/Rules.antt), and in the list of a saved machine.
#[derive(Clone, Copy)]
pub struct Numbers {
    pub count: u8,
    pub first: i64,
    pub second: i64,
    pub third: i64,
    pub fourth: i64,
}

// What a byte means: nothing yet; an instruction is named; a pair is complete; an instruction has ended, with its numbers;
// the byte is refused, with the cause's number.
#[derive(Clone, Copy)]
pub enum Event {
    Nothing,
    Named(usize),
    Pair(Coordinates),
    Ended(usize, Numbers),
    Refused(u8),
}

// What becomes of a number that ends: it is kept among the others, completes a pair, or is refused. Two of the three
// outcomes are good and go different ways, so that it is no Result.
#[derive(Clone, Copy)]
pub enum Closed {
    Kept(Numbers),
    Complete(Coordinates),
    Faulty(u8),
}

// Where the reader is: between instructions; after a first letter; in an instruction with no number open; in a number;
// passing over what a refusal leaves of an instruction; in a label's text.
#[derive(Clone, Copy)]
pub enum Mode {
    Idle,
    First(u8),
    Parameters,
    InNumber,
    PassOver,
    Label,
}

#[derive(Clone, Copy)]
pub struct Reader {
    pub mode: Mode,
    // The instruction that was named last, its numbers, and the number that is open or was the last.
    pub op: usize,
    pub numbers: Numbers,
    pub number: Number,
}

#[derive(Clone, Copy)]
pub struct Step {
    pub reader: Reader,
    pub event: Event,
}

// What bytes come to, up to the first that means something: the reader after it, what it means, and the place after it.
#[derive(Clone, Copy)]
pub struct Next {
    pub reader: Reader,
    pub event: Event,
    pub at: usize,
}
