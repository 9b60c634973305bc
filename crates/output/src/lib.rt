// Text on its way to standard output, for all programs. It is gathered in a lent buffer, and written out when that is full; `used` is how many
// bytes of the buffer hold text, and each function answers how many do after it. More than the buffer holds says that a write failed, and one
// more and so many, with which number of the system's errors: from then on nothing is gathered and nothing is written, so that what was written
// is a beginning of the text. No contract can say what is written out: the programs over this crate are run, and what they print is compared
// byte for byte. A count and no Result, nor a struct of the buffer and the count: each function that docs/CONTRACTS.md names here takes any count, a failure's
// among them, and puts on nothing.
#![tactic(auto)]

ghost use Rattle.std.specs.Prelude.{◌≡◌, ◌≤◌, ◌<◌, ◌⊎◌, ltb, length, take};
ghost use Rattle.output.specs.Gathered.{room, Flushed, Put};
ghost use Rattle.output.specs.Texts.{Puts, PutsNatural};
ghost use Rattle.output.specs.Words.{trimmed};

use std::io::writer;
use streams::{Stream, tell, write_all};

mod text;

pub use text::Text;

const ROOM: usize = 65536;

const FAILED: usize = 65537;

// Whether a write failed.
pub fn failed(used: usize) -> bool
    ensures { result ≡ ltb room used }
{
    ROOM < used
}

// That a write failed, with this error.
fn failed_by(error: i32) -> usize
    ensures { room < result }
{
    FAILED + usize::try_from(error).unwrap_or(0)
}

// The error by which a write failed; 0 if none did, or by none of the system's.
fn error_of(used: usize) -> i32 {
    i32::try_from(used.saturating_sub(FAILED)).unwrap_or(0)
}

// Writes the first bytes of the buffer, and answers what is used after it: nothing, or that this failed.
fn write_front(rt: &HostRuntime, buffer: &[u8], used: usize) -> usize
    ensures { (result ≡ 0) ⊎ (room < result) }
{
    let mut file = Stream::new(writer(rt));
    if used <= buffer.len() && write_all(&mut file, &buffer[..used]) {
        return 0;
    }
    failed_by(file.error)
}

// Writes out what is gathered.
pub fn flush(rt: &HostRuntime, buffer: &[u8; 65536], used: usize) -> usize
    ensures { Flushed used result }
{
    if ROOM < used {
        return used;
    }
    write_front(rt, buffer, used)
}

// The end of a program's text: writes out what is gathered, and tells on standard error, under this name, if this or an earlier write failed.
pub fn finish(rt: &HostRuntime, buffer: &[u8; 65536], used: usize, name: &[u8]) {
    let end = flush(rt, buffer, used);
    if failed(end) {
        tell(rt.stderr(), name, error_of(end));
    }
}

pub fn put_byte(rt: &HostRuntime, buffer: &mut [u8; 65536], used: usize, byte: u8) -> usize
    ensures { Put used byte buffer.old result buffer.new }
{
    if used < ROOM {
        buffer[used] = byte;
        return used + 1;
    }
    let end = flush(rt, buffer, used);
    if ROOM < end {
        return end;
    }
    buffer[0] = byte;
    1
}

pub fn put_bytes(rt: &HostRuntime, buffer: &mut [u8; 65536], used: usize, bytes: &[u8]) -> usize
    ensures { Puts bytes.now used buffer.old result buffer.new }
{
    let mut end = used;
    for byte in bytes {
        end = put_byte(rt, buffer, end, *byte);
    }
    end
}

pub fn put_natural(rt: &HostRuntime, buffer: &mut [u8; 65536], used: usize, number: u64) -> usize
    ensures { PutsNatural number used buffer.old result buffer.new }
{
    let mut digits = [0u8; 20];
    let count = io::decimal(number, &mut digits);
    put_bytes(rt, buffer, used, &digits[..count])
}

// How many bytes a text has without the blanks at its end.
fn trimmed_length(text: &[u8]) -> usize
    ensures value { result ≡ trimmed text.now }
    ensures upper_bound { result ≤ length text.now }
{
    for n in (0..text.len()).rev() {
        if text[n] != b' ' {
            return n + 1;
        }
    }
    0
}

// A text without the blanks at its end.
pub fn put_words(rt: &HostRuntime, buffer: &mut [u8; 65536], used: usize, text: &[u8]) -> usize
    ensures { Puts (take (trimmed text.now) text.now) used buffer.old result buffer.new }
{
    let n = trimmed_length(text);
    put_bytes(rt, buffer, used, &text[..n])
}
