// What a feed answers, and the list of plain numbers that it was lent, five for each stroke: numbers and no strokes, since the call feed has them so.
use crate::put_refusal;
use output::Text;
use std::fmt;
use std::fmt::Write;

// The most records of a lent list.
pub const RECORDS: usize = 16;

// The list before it is lent.
pub const MARKED: [i64; 80] = [7; 80];

// "feed: list full"
const LIST_FULL: u8 = 21;

// A reply waits.
const BUSY: u8 = 20;

// The first records of these numbers.
pub fn put_records(out: &mut Text<'_>, numbers: &[i64], count: usize) -> fmt::Result {
    for record in numbers.chunks_exact(5).take(count) {
        if let [pen, x0, y0, x1, y1] = record {
            write!(out, " {pen}:{x0},{y0}-{x1},{y1}")?;
        }
    }
    Ok(())
}

// The refusal that a feed stopped at, if it did, after so many bytes: it did not where the list is full or a reply waits.
pub fn put_stop(out: &mut Text<'_>, number: u8, at: usize) -> fmt::Result {
    match number {
        LIST_FULL | BUSY => Ok(()),
        refusal => put_refusal(out, refusal, at as u64),
    }
}
