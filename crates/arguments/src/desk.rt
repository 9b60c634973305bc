// The arguments of this process, and what is said of them: help, the version, or which word is wrong. A file takes the place of standard input. Every text
// has the program's own name.
ghost use Rattle.std.specs.Prelude.{◌≤◌, length};

use super::{HELP, RUN, Request, VERSION, Wrong, begun, ended, taken};
use std::env::{Env, FillError};
use std::io::{Write as _, writer};
use streams::{Source, Stream, number_of, open, standard, tell, write_all};

// Writes on standard error. Where that fails, nobody is left to be told.
fn say(rt: &HostRuntime, text: &[u8]) -> bool {
    let mut file = Stream::new(rt.stderr());
    write_all(&mut file, text)
}

// Writes on standard output.
fn print(rt: &HostRuntime, text: &[u8]) -> bool {
    let mut file = Stream::new(writer(rt));
    write_all(&mut file, text)
}

// One word: how many bytes it has, which stand at the start of the buffer. A word that is longer than a path is as an empty one, and so is one that is not there.
pub fn word_at(rt: &HostRuntime, at: usize, word: &mut [u8; 4096]) -> usize
    ensures { result ≤ length word.new }
{
    rt.arg(at, word).unwrap_or(0)
}

// Whether there is such a word.
fn is_word(rt: &HostRuntime, at: usize) -> bool {
    let mut word = io::buffer();
    !matches!(rt.arg(at, &mut word), Err(FillError::NotPresent))
}

// One word more.
fn next(rt: &HostRuntime, r: Request, i: usize) -> Request {
    let mut word = io::buffer();
    let n = word_at(rt, i, &mut word);
    taken(r, i, &word[..n])
}

// What all arguments ask for.
pub fn asked(rt: &HostRuntime) -> Request {
    let mut r = begun();
    for i in 1..usize::MAX {
        if !is_word(rt, i) {
            break;
        }
        r = next(rt, r, i);
    }
    ended(r)
}

// Says which word is wrong, and why.
fn wrong(rt: &HostRuntime, program: &[u8], at: usize, why: Wrong) {
    let mut word = io::buffer();
    let n = word_at(rt, at, &mut word);
    say(rt, program);
    say(rt, b": ");
    say(rt, &word[..n]);
    let mut words = [0u8; 128];
    let mut rest: &mut [u8] = &mut words;
    let _ = write!(rest, ": {why}");
    let used = 128usize.saturating_sub(rest.len());
    say(rt, &words[..used]);
    say(rt, b" (");
    say(rt, program);
    say(rt, b" --help says more)\n");
}

// What the program does, and its arguments.
fn help(rt: &HostRuntime, program: &[u8], about: &[u8]) {
    print(rt, b"usage: ");
    print(rt, program);
    print(
        rt,
        b" [--sheet NAME | LEFT BOTTOM RIGHT TOP] [--scale N] [FILE]\n\n",
    );
    print(rt, about);
    print(
        rt,
        b"\n  FILE                   HP-GL; without it, standard input is read\n  LEFT BOTTOM RIGHT TOP  hard limits in units, each -32768 to 32767; without them -10000 -7000 10000 7000\n",
    );
    print(
        rt,
        b"  --sheet NAME           the hard limits of a sheet by its name: hockey, curling\n  --scale N              metres are those of a drawing at 1:N, 1 to 255; without it 1:40\n",
    );
    print(rt, b"  --help, --version      this text; the version\n");
}

// Says that the input could not be read, and why: the error is that of the read that failed.
pub fn unread(rt: &HostRuntime, program: &[u8], file: usize, error: i32) {
    say(rt, program);
    if file == 0 {
        tell(rt.stderr(), b": standard input", error);
        return;
    }
    tell(rt.stderr(), b": the file", error);
}

// Says that fresh refuses the limits. Of those that are asked for it refuses none.
pub fn refused(rt: &HostRuntime, program: &[u8]) {
    say(rt, program);
    say(rt, b": limits refused with 10\n");
}

// The input: standard input, or the file in its place; nothing where it cannot be opened, and then that is said.
fn opened(rt: &HostRuntime, program: &[u8], file: usize) -> Option<Stream<Source>> {
    if file == 0 {
        return Some(standard(rt));
    }
    let mut word = io::buffer();
    let n = word_at(rt, file, &mut word);
    match open(rt, &word[..n]) {
        Ok(source) => Some(source),
        Err(error) => {
            say(rt, program);
            say(rt, b": ");
            tell(rt.stderr(), &word[..n], number_of(&error));
            None
        }
    }
}

// The input of the program, where it is to run; where not, all is said.
pub fn ready(rt: &HostRuntime, program: &[u8], about: &[u8], r: Request) -> Option<Stream<Source>> {
    match r.outcome {
        RUN => return opened(rt, program, r.file),
        HELP => help(rt, program, about),
        VERSION => {
            print(rt, program);
            print(rt, b" of Vutaroi 0.1.0\n");
        }
        outcome => wrong(rt, program, r.at, Wrong::of(outcome)),
    }
    None
}
