// Reading and writing that a signal or a pipe that is full or empty for a moment does not end, and of which no byte is lost and none doubled: the contracts
// say so by the bytes that a reader has left and a writer holds, of those that tell. Which bytes the system gives and takes no contract can say; that each call
// ends is proved, so that each tries a fixed number of times, which nobody lives to see used up.
#![tactic(auto)]

ghost use Rattle.std.specs.Prelude.{ℕ, true, false, ◌≡◌, ◌<◌, ◌≤◌, pos, length, take};
ghost use Rattle.std.specs.Io.KnownBytes.{Appends, Consumes, IsAtEnd};
ghost use Rattle.io.specs.Counts.{IsPrefixLen};

use std::fs;
use std::fs::File;
use std::io::{Error, ErrorKind, Read, Result, Stderr, Stdin, Write};

const TRIES: u64 = 0x800000000000;

// The system's number for an argument that it cannot take, and for bytes that are no text.
const INVALID: i32 = 22;

const NO_TEXT: i32 = 84;

// What is read or written, and the number of the error of its last call that failed, as the system counts them; 0 where none has failed.
#[derive(Drop)]
pub struct Stream<T> {
    pub inner: T,
    pub error: i32,
}

impl<T> Stream<T> {
    // No call has failed yet.
    pub fn new(inner: T) -> Stream<T>
        ensures inner { result.inner ≡ inner }
        ensures error { result.error ≡ pos 0 }
    {
        Stream { inner, error: 0 }
    }
}

// The number of an error. One that is not the system's own is of an argument that it could not take.
pub fn number_of(error: &Error) -> i32 {
    error.raw_os_error().unwrap_or(INVALID)
}

// Where a program's input comes from: standard input, or a file in its place. Neither is read before it is asked for, nor further.
#[derive(Drop)]
pub enum Source {
    Standard(Stdin),
    Named(File),
}

impl Read for Source {
    fn read(&mut self, buf: &mut [u8]) -> Result<usize> {
        match self {
            Source::Standard(file) => file.read(buf),
            Source::Named(file) => file.read(buf),
        }
    }
}

// Opens a file to read it, by its name, which has to be text.
pub fn open(rt: &HostRuntime, name: &[u8]) -> Result<Stream<Source>> {
    let Ok(path) = str::from_utf8(name) else {
        return Err(Error::from_raw_os_error(NO_TEXT));
    };
    Ok(Stream::new(Source::Named(fs::open(rt, path)?)))
}

// Standard input.
pub fn standard(rt: &HostRuntime) -> Stream<Source> {
    Stream::new(Source::Standard(rt.stdin()))
}

// Whether the call that has just failed is to be tried again, at once: a signal came in between, or it has to wait.
fn again(error: &Error) -> bool {
    matches!(error.kind(), ErrorKind::Interrupted | ErrorKind::WouldBlock)
}

// What a read gave: so many bytes at the start of the block, none at the end of the input; or nothing where it failed. A count beside a flag and no Result, since
// read_full tells how much it had read before a failure too.
#[derive(Clone, Copy)]
pub struct Got {
    pub count: usize,
    pub good: bool,
}

// One read. Where it failed, the stream has the error of the read.
pub fn read<R: Read>(file: &mut Stream<R>, block: &mut [u8]) -> Got
    ensures prefix_len { IsPrefixLen result.count block.new }
    ensures count_value { result.good ≡ false → result.count ≡ 0 }
    ensures bytes { Consumes (R.remaining file.old.inner) (R.remaining file.new.inner) (take result.count block.new) }
    ensures end { result.good ≡ true → result.count ≡ 0 → 0 < length block.old → IsAtEnd (R.remaining file.new.inner) }
{
    for _ in 0..TRIES {
        match file.inner.read(block) {
            Ok(count) => return Got { count, good: true },
            Err(error) => {
                file.error = number_of(&error);
                if !again(&error) {
                    break;
                }
            }
        }
    }
    Got {
        count: 0,
        good: false,
    }
}

// Reads until the block is full, the input ends or a read fails; what was read before that stands at the start of the block.
pub fn read_full<R: Read>(file: &mut Stream<R>, block: &mut [u8]) -> Got
    ensures prefix_len { IsPrefixLen result.count block.new }
    ensures bytes { Consumes (R.remaining file.old.inner) (R.remaining file.new.inner) (take result.count block.new) }
    ensures end { result.good ≡ true → result.count < length block.old → IsAtEnd (R.remaining file.new.inner) }
{
    let mut done = 0;
    // a while, since each read gives as many bytes as it likes
    while done < block.len() {
        let got = read(file, &mut block[done..]);
        if got.count == 0 {
            return Got {
                count: done,
                good: got.good,
            };
        }
        done += got.count;
    }
    Got {
        count: done,
        good: true,
    }
}

// One write: how many of the first bytes it took; 0 where it failed, as where it took none: either ends the writing.
fn write_some<W: Write>(file: &mut Stream<W>, text: &[u8]) -> usize
    ensures prefix_len { IsPrefixLen result text.now }
    ensures bytes { Appends (W.contents file.old.inner) (W.contents file.new.inner) (take result text.now) }
{
    for _ in 0..TRIES {
        match file.inner.write(text) {
            Ok(count) => return count,
            Err(error) => {
                file.error = number_of(&error);
                if !again(&error) {
                    return 0;
                }
            }
        }
    }
    0
}

// Writes all of a text, and answers whether it did; where not, the stream has the error of the write that failed.
pub fn write_all<W: Write>(file: &mut Stream<W>, text: &[u8]) -> bool
    ensures all { result ≡ true → Appends (W.contents file.old.inner) (W.contents file.new.inner) text.now }
    ensures beginning { (n : ℕ) × (n ≤ length text.now) × Appends (W.contents file.old.inner) (W.contents file.new.inner) (take n text.now) }
{
    let mut done = 0;
    // a while, since each write takes as many bytes as it likes
    while done < text.len() {
        let put = write_some(file, &text[done..]);
        if put == 0 {
            return false;
        }
        done += put;
    }
    true
}

// The words of an error, without the number that std writes after them, as in `Input/output error (os error 5)`: how many bytes they have, which stand
// at the start of the buffer.
fn words_of(error: i32, buffer: &mut [u8; 256]) -> usize
    ensures { result ≤ 256 }
{
    let mut rest: &mut [u8] = buffer;
    let _ = write!(rest, "{}", Error::from_raw_os_error(error));
    let left = rest.len();
    let mut end = 256usize.saturating_sub(left);
    for (at, byte) in buffer.iter().enumerate() {
        if *byte == b'(' && 0 < at && at <= end {
            end = at - 1;
        }
    }
    end
}

// Says on standard error what failed, by its name, and why, by the number of the error. Where that cannot be said, nobody is left to hear it.
pub fn tell(to: Stderr, name: &[u8], error: i32) {
    let mut words = [0u8; 256];
    let n = words_of(error, &mut words);
    let mut file = Stream::new(to);
    write_all(&mut file, name);
    write_all(&mut file, b": ");
    write_all(&mut file, &words[..n]);
    write_all(&mut file, b"\n");
}

#[cfg(test)]
mod tests;
