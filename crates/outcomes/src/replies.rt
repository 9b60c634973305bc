// What a fetch answers, and the buffer that it was lent.
use output::Text;
use std::fmt;
use std::fmt::Write;

// The most bytes of a lent buffer.
pub const BUFFER: usize = 64;

// What the buffer holds before it is lent.
const MARK: u8 = 7;

pub const MARKED: [u8; BUFFER] = [MARK; BUFFER];

// Whether these bytes of the buffer are what they were.
fn is_kept(bytes: &[u8]) -> bool {
    bytes.iter().all(|byte| *byte == MARK)
}

// A reply without the 13, 10 that close it. Where they do not, or a byte past it was written, the outcome tells.
fn put_reply(out: &mut Text<'_>, buffer: &[u8; BUFFER], size: usize) -> fmt::Result {
    if let Some(([reply @ .., 13, 10], rest)) = buffer.split_at_checked(size) {
        if is_kept(rest) {
            write!(out, " \"")?;
            out.write_bytes(reply)?;
            return write!(out, "\"");
        }
    }
    write!(out, " spoilt")
}

// What a fetch answered, with a word for one where no reply waited. Such a one, and one that was refused, writes nothing.
pub fn put_fetched(
    out: &mut Text<'_>,
    buffer: &[u8; BUFFER],
    size: usize,
    number: u8,
    word: &str,
) -> fmt::Result {
    if 0 < size {
        return put_reply(out, buffer, size);
    }
    if !is_kept(buffer) {
        return write!(out, " spoilt");
    }
    if number == 0 {
        return out.write_str(word);
    }
    write!(out, " E{number}@fetch")
}
