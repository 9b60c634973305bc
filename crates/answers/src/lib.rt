// What draw and look answer, and the counts of feed and plot, as numbers in lists that a program in another language lends.
// specs/Answers.antt has the numbers, specs/AnswerLaws.antt that they tell 01's values. The crate vutaroi has the calls.
#![tactic(auto)]

ghost use Rattle.std.specs.Prelude.{◌≡◌, [], ◌∷◌, ◌≤◌, length};
ghost use Rattle.rows.specs.Rows.{over};
ghost use Rattle.answers.specs.Answers.{drawn_kind, drawn_numbers, stroke_row, look_row};

use hpgl::{Drawn, Look, Stroke};
use rows::{Row, flag_number, put_row, whole};

// What draw answers, by number: these are the numbers of C's vutaroi_draw.
const IDLE: u8 = 0;

const HIDDEN: u8 = 1;

const STROKE: u8 = 2;

// A function and no From: neither the crate of Stroke nor that of Row knows the other.
fn stroke_row(s: Stroke) -> Row
    ensures { result ≡ stroke_row s }
{
    Row {
        a: whole(s.pen as u32),
        b: s.x0,
        c: s.y0,
        d: s.x1,
        e: s.y1,
    }
}

pub fn look_row(l: Look) -> Row
    ensures { result ≡ look_row l }
{
    let location = l.location;
    Row {
        a: location.x,
        b: location.y,
        c: whole(l.pen as u32),
        d: flag_number(l.down),
        e: whole(l.bytes as u32),
    }
}

// Stores a stroke, if one was drawn.
pub fn put_drawn(d: Drawn, stroke: &mut [i64]) -> u8
    requires { 5 ≤ length stroke.old }
    ensures value { result ≡ drawn_kind d }
    ensures stroke_after { stroke.new ≡ over stroke.old 0 (drawn_numbers d) }
{
    match d {
        Drawn::Idle => IDLE,
        Drawn::Hidden => HIDDEN,
        Drawn::Stroke(s) => {
            put_row(stroke, 0, stroke_row(s));
            STROKE
        }
    }
}

// Stores how many bytes were taken and how many records are stored.
pub fn put_counts(taken: usize, stored: usize, answer: &mut [u64])
    requires { 2 ≤ length answer.old }
    ensures { answer.new ≡ over answer.old 0 (taken ∷ stored ∷ []) }
{
    answer[0] = taken as u64;
    answer[1] = stored as u64;
}
