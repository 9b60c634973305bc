// What a line of the program vectors says, as text alone: its fields, the numbers in them, and a sequence of bytes and marks. It knows of no machine.
#![tactic(auto)]

pub mod codes;
pub mod fields;

use arrayvec::ArrayVec;
use codes::{Code, Codes, Kind, ROOM, bytes_into, written_out};
use fields::{field, natural};

// The number of a field.
pub fn number_of(line: &[u8], n: usize) -> u64 {
    let (number, _) = natural(field(line, n));
    number
}

// The sequence of a field, written out in place of what stood in the list.
pub fn codes_of(line: &[u8], n: usize, codes: &mut Codes) {
    codes.clear();
    written_out(field(line, n), codes);
}

// The bytes that the sequence of a field begins with, in place of what stood in their list.
pub fn plain_of<const N: usize>(line: &[u8], n: usize, bytes: &mut ArrayVec<u8, N>) {
    let mut codes = Codes::from_array_in((), [Code::Plain(0); ROOM]);
    codes_of(line, n, &mut codes);
    bytes_into(&codes, Kind::Plain, bytes);
}

#[cfg(test)]
mod tests;
