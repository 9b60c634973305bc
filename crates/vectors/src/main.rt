// Runs byte sequences over the machine. Each line of standard input names the calls to make, and its outcome is printed in one line.
// The head of the stored `stdin` says how a line is written, docs/VECTORS.md where the outcomes in the stored `stdout` come from.
#![tactic(auto)]

ghost use Rattle.std.specs.Prelude.{IfOk};
ghost use Rattle.courses.specs.declared.Course.{Course};

use clip::Rect;
use courses::Course;
use drive::drive;
use machine::{Machine, Stroke};
use outcomes::moves::put_moves;
use outcomes::put_limits;
use output::Text;
use sequences::codes::{Bytes, Code, Codes, Kind, ROOM, bytes_into};
use sequences::fields::{field, name_of, whole};
use sequences::{codes_of, number_of};
use std::fmt;
use std::fmt::Write;
use streams::{read_full, standard, tell};

// The hard limits of the lines to come.
const USUAL: Rect = Rect {
    left: -10000,
    bottom: -7000,
    right: 10000,
    top: 7000,
};

// The limits that a line sets: its four numbers, or the usual ones where it has none.
fn limits_of(line: &[u8]) -> Rect {
    if line.len() <= 7 {
        return USUAL;
    }
    let (left, rest) = whole(&line[6..]);
    let (bottom, rest) = whole(rest);
    let (right, rest) = whole(rest);
    let (top, _) = whole(rest);
    Rect {
        left,
        bottom,
        right,
        top,
    }
}

// Limits, and the number that fresh answers for them.
fn run_limits(limits: Rect, out: &mut Text<'_>) -> fmt::Result {
    let started = Machine::fresh(limits.left, limits.bottom, limits.right, limits.top);
    put_limits(out, limits, started.number)
}

fn fresh_machine(limits: Rect) -> Machine {
    let started = Machine::fresh(limits.left, limits.bottom, limits.right, limits.top);
    started.machine
}

// The calls over the sequence of a line's first field, from a fresh machine, with fetches and draws held back or not.
fn run_codes(
    line: &[u8],
    limits: Rect,
    hold: bool,
    codes: &mut Codes,
    out: &mut Text<'_>,
) -> Result<Course, fmt::Error> {
    codes_of(line, 1, codes);
    let mut course = Course::new(fresh_machine(limits), hold);
    course.run(codes, out)?;
    Ok(course)
}

fn run_take(line: &[u8], limits: Rect, codes: &mut Codes, out: &mut Text<'_>) -> fmt::Result {
    let course = run_codes(line, limits, false, codes, out)?;
    write!(out, " |")?;
    course.look(out)
}

// The bytes that the sequence of a field begins with: plain_of, with the list of codes that the lines share.
fn plain_bytes(line: &[u8], n: usize, codes: &mut Codes, bytes: &mut Bytes) {
    codes_of(line, n, codes);
    bytes_into(codes, Kind::Plain, bytes);
}

// One feed of a line's third field, into as many records as its second one says.
fn run_feed(line: &[u8], limits: Rect, codes: &mut Codes, out: &mut Text<'_>) -> fmt::Result {
    let mut course = run_codes(line, limits, true, codes, out)?;
    let mut bytes = Bytes::new();
    plain_bytes(line, 3, codes, &mut bytes);
    course.feed_once(&bytes, number_of(line, 2) as usize, out)
}

fn run_strokes(line: &[u8], limits: Rect, codes: &mut Codes, out: &mut Text<'_>) -> fmt::Result {
    let mut bytes = Bytes::new();
    plain_bytes(line, 1, codes, &mut bytes);
    Course::new(fresh_machine(limits), false).feed_all(&bytes, out)
}

fn run_drive(line: &[u8], out: &mut Text<'_>) -> fmt::Result {
    let pitch = number_of(line, 1) % 256;
    let pen = number_of(line, 2) % 256;
    let (_, rest) = whole(field(line, 2));
    let (x0, rest) = whole(rest);
    let (y0, rest) = whole(rest);
    let (x1, rest) = whole(rest);
    let (y1, _) = whole(rest);
    let stroke = Stroke {
        pen: pen as u8,
        x0,
        y0,
        x1,
        y1,
    };
    put_moves(out, drive(stroke, pitch as u8))
}

// A line of calls, which its first letter names.
fn run_line(
    letter: u8,
    line: &[u8],
    limits: Rect,
    codes: &mut Codes,
    out: &mut Text<'_>,
) -> fmt::Result {
    out.write_bytes(name_of(line))?;
    write!(out, " |")?;
    match letter {
        b't' => run_take(line, limits, codes, out),
        b'f' => run_feed(line, limits, codes, out),
        b's' => run_strokes(line, limits, codes, out),
        b'd' => run_drive(line, out),
        _ => write!(out, " unknown"),
    }
}

// Each line, but for comments and empty ones. They share the list of codes, in which each puts its own in place of what stands there, so it may begin full:
// `Codes::new` would take the room of three such lists on the stack.
fn run_lines(text: &[u8], out: &mut Text<'_>) -> fmt::Result {
    let mut codes = Codes::from_array_in((), [Code::Plain(0); ROOM]);
    let mut limits = USUAL;
    for line in text.split(|byte| *byte == b'\n') {
        match line.first() {
            None | Some(0 | b'#') => continue,
            Some(b'l') => {
                limits = limits_of(line);
                run_limits(limits, out)?;
            }
            Some(letter) => run_line(*letter, line, limits, &mut codes, out)?,
        }
        writeln!(out)?;
    }
    Ok(())
}

fn main(rt: HostRuntime) {
    let mut input = io::large_buffer();
    let mut source = standard(&rt);
    let got = read_full(&mut source, &mut input);
    if !got.good {
        tell(rt.stderr(), b"vectors: standard input", source.error);
        return;
    }
    let mut out = Text::new(&rt);
    // a write that failed is told at the end
    let _ = run_lines(&input[..got.count], &mut out);
    out.finish(b"vectors: standard output");
}
