// Stored drawings: the lines of each are compared with those stored beside it, byte by byte.
//
// The file list has a line of six words for each: the drawing, the file of its lines, and the hard limits left, bottom, right, top.
#![tactic(auto)]

ghost use Rattle.std.specs.Prelude.{◌≡◌, ◌+◌, ◌≤◌, ◌==◌, length, take, drop, position};
ghost use Rattle.drawings.specs.Part.{index_of};

use clip::Rect;
use delivery::files::{Sink, run};
use output::Text;
use std::fmt;
use std::fmt::Write;
use streams::{Source, Stream, number_of, read_full, tell};
use textlines::word::{limits_of, whole_of};

// The place of the first such byte, if there is one.
fn first_at(text: &[u8], byte: u8) -> Option<usize>
    ensures { result ≡ position (λ b. b == byte) text.now }
{
    text.iter().position(|b| *b == byte)
}

// The place of the first such byte, or the end.
fn find(text: &[u8], byte: u8) -> usize
    ensures value { result ≡ index_of byte text.now }
    ensures upper_bound { result ≤ length text.now }
{
    first_at(text, byte).unwrap_or(text.len())
}

// The word that a line begins with, and what follows the blank after it: nothing after the last one.
fn word(line: &[u8]) -> (&[u8], &[u8])
    ensures word { result.0.now ≡ take (index_of 32 line.now) line.now }
    ensures rest { result.1.now ≡ drop (index_of 32 line.now + 1) line.now }
{
    let (word, rest) = line.split_at(find(line, b' '));
    (word, rest.get(1..).unwrap_or(&[]))
}

fn open(rt: &HostRuntime, name: &[u8]) -> Option<Stream<Source>> {
    match streams::open(rt, name) {
        Ok(file) => Some(file),
        Err(error) => {
            tell(rt.stderr(), name, number_of(&error));
            None
        }
    }
}

// Whether the file that lines were compared with has nothing more.
fn at_end(sink: &mut Sink) -> bool {
    let Sink::Compare(file) = sink else {
        return false;
    };
    let mut byte = [0u8; 1];
    let got = streams::read(file, &mut byte);
    got.good && got.count == 0
}

// What came of a drawing, after the name of its file, which need be no text: so many lines are as stored, and all of them are or the next one differs.
fn put_outcome(out: &mut Text<'_>, name: &[u8], same: u64, whole: bool) -> fmt::Result {
    out.write_bytes(name)?;
    if whole {
        writeln!(out, ": as stored, {same} lines")
    } else {
        writeln!(out, ": differs at line {}", same.wrapping_add(1))
    }
}

// Compares the lines of a drawing with those of a file of this name, and says what came of it.
fn compare(
    rt: &HostRuntime,
    name: &[u8],
    asked: Option<Rect>,
    mut drawing: Stream<Source>,
    stored: Stream<Source>,
) {
    let mut sink = Sink::Compare(stored);
    let finished = run(asked, &mut drawing, &mut sink);
    let whole = finished.end.is_ok() && at_end(&mut sink);
    let mut out = Text::new(rt);
    // a write that failed is told at the end
    let _ = put_outcome(&mut out, name, finished.tally.same, whole);
    out.finish(b"drawings: standard output");
}

// A line has its words between blanks. One that is missing is empty, as one between two blanks is.
fn check_line(rt: &HostRuntime, line: &[u8]) {
    let (drawn, rest) = word(line);
    let (kept, rest) = word(rest);
    let (left, rest) = word(rest);
    let (bottom, rest) = word(rest);
    let (right, rest) = word(rest);
    let (top, _) = word(rest);
    let asked = limits_of(
        whole_of(left),
        whole_of(bottom),
        whole_of(right),
        whole_of(top),
    );
    let Some(drawing) = open(rt, drawn) else {
        return;
    };
    let Some(stored) = open(rt, kept) else {
        return;
    };
    compare(rt, kept, asked, drawing, stored);
}

fn check_list(rt: &HostRuntime, list: &[u8]) {
    for line in list.split_inclusive(|byte| *byte == b'\n') {
        check_line(rt, line.strip_suffix(b"\n").unwrap_or(line));
    }
}

fn main(rt: HostRuntime) {
    let mut space = io::large_buffer();
    let Some(mut file) = open(&rt, b"list") else {
        return;
    };
    let got = read_full(&mut file, &mut space);
    if !got.good {
        tell(rt.stderr(), b"list", file.error);
        return;
    }
    check_list(&rt, &space[..got.count]);
}
