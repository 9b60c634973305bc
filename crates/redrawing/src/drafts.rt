// A list whose strokes come one by one, twice: first it is judged, then it is written. It comes to the answer and the output of put_list (the laws of Drafts.antt).
ghost use Rattle.std.specs.Prelude.{◌≡◌, ◌+◌, ◌^◌, ◌≤◌, ◌<◌, length};
ghost use Rattle.redrawing.specs.Drafts.{added_of, judged_of, begun, next_of, next_out, turned_of, turned_out, RoomFor, RoomToStart};

use super::{START, put_start, put_stroke, stroke_length, writable};
use hpgl::Stroke;
use redrawn::Refusal;

// The answer so far: bytes written, and document 02's number (0 for none). Two numbers and no Result: next keeps any number beside any length that fits, and
// turned any length beside a refusal's number (docs/CONTRACTS.md).
#[derive(Clone, Copy)]
pub struct Written {
    pub length: usize,
    pub number: u8,
}

// How far a list is: whether it is judged or written, which stroke is next, the pen before it (0 before the first), and the answer so far, which stands in either case.
#[derive(Clone, Copy)]
pub struct Draft {
    pub judging: bool,
    pub at: usize,
    pub before: u8,
    pub written: Written,
}

// So many bytes more, if the output has room.
fn added(length: usize, more: usize, room: usize) -> Written
    requires { length ≤ room }
    ensures { result ≡ added_of length more room }
{
    if room - length < more {
        return Written {
            length: 0,
            number: Refusal::TooShort.number(),
        };
    }
    Written {
        length: length + more,
        number: 0,
    }
}

// The answer with a stroke more.
fn judged(w: Written, before: u8, s: Stroke, room: usize) -> Written
    requires { w.length ≤ room }
    ensures { result ≡ judged_of w before s room }
{
    if !writable(s) {
        return Written {
            length: 0,
            number: Refusal::NotWritable.number(),
        };
    }
    if w.number != 0 {
        return w;
    }
    added(w.length, stroke_length(before, s), room)
}

// A list of which nothing is judged yet: its text has IN.
pub fn begin(room: usize) -> Draft
    ensures { result ≡ begun room }
{
    Draft {
        judging: true,
        at: 0,
        before: 0,
        written: added(0, START, room),
    }
}

// The next stroke is judged, or written.
pub fn next(d: Draft, s: Stroke, out: &mut [u8]) -> Draft
    requires { (d.at + 1 < 2 ^ 64) × RoomFor d s (length out.old) }
    ensures value { result ≡ next_of d s (length out.old) }
    ensures out_after { out.new ≡ next_out d s out.old }
{
    let written = if d.judging {
        judged(d.written, d.before, s, out.len())
    } else {
        Written {
            length: put_stroke(out, d.written.length, d.before, s),
            ..d.written
        }
    };
    Draft {
        at: d.at + 1,
        before: s.pen,
        written,
        ..d
    }
}

// The whole list is judged: it is refused, or begun again with its text.
pub fn turned(d: Draft, out: &mut [u8]) -> Draft
    requires { RoomToStart d (length out.old) }
    ensures value { result ≡ turned_of d }
    ensures out_after { out.new ≡ turned_out d out.old }
{
    if d.written.number != 0 {
        return Draft {
            judging: false,
            ..d
        };
    }
    Draft {
        judging: false,
        at: 0,
        before: 0,
        written: Written {
            length: put_start(out, 0),
            number: 0,
        },
    }
}
