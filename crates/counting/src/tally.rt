// What is counted of a drawing: strokes and their length by pen, empty driving, boxes, and segments that the limits cut off.
ghost use Rattle.std.specs.Prelude.{◌≡◌};
ghost use Rattle.counting.specs.Tally as S;

use clip::{Point, Rect};
use console::sum;
use hpgl::{Drawn, Segment, Stroke};
use measure::length;
use turns::turn::{greater, lesser, ordered};

// What is painted: strokes and their lengths by pen, the ways between strokes, the end of the last one, and the box of all, both none before the first stroke. Lengths are in tenths of a unit.
// By pen there are two lists and no list of pairs: total and for_pen take one of them.
#[derive(Clone, Copy)]
pub struct Paint {
    pub strokes: [u64; 9],
    pub lengths: [u64; 9],
    pub empty: u64,
    pub end: Option<Point>,
    pub area: Option<Rect>,
}

// Segments by what the limits leave of them, what is painted, and the box of all segments before the limits cut them, if there are any.
#[derive(Clone, Copy)]
pub struct Tally {
    pub whole: u64,
    pub clipped: u64,
    pub hidden: u64,
    pub paint: Paint,
    pub asked: Option<Rect>,
}

pub fn nothing() -> Tally
    ensures { result ≡ S.nothing_of }
{
    Tally {
        whole: 0,
        clipped: 0,
        hidden: 0,
        paint: Paint {
            strokes: [0; 9],
            lengths: [0; 9],
            empty: 0,
            end: None,
            area: None,
        },
        asked: None,
    }
}

// The smallest box that holds both.
fn joined(a: Rect, b: Rect) -> Rect
    ensures { result ≡ S.joined_of a b }
{
    Rect {
        left: lesser(a.left, b.left),
        bottom: lesser(a.bottom, b.bottom),
        right: greater(a.right, b.right),
        top: greater(a.top, b.top),
    }
}

// A box with the line between two points.
#[tactic(auto, unfolding(crate::specs::Tally::widened_of))]
fn widened(e: Option<Rect>, a: Point, b: Point) -> Option<Rect>
    ensures { result ≡ S.widened_of e a b }
{
    let line = ordered(a, b);
    match e {
        Some(area) => Some(joined(area, line)),
        None => Some(line),
    }
}

// From one point to another, in tenths of a unit.
fn way(a: Point, b: Point) -> u64
    ensures { result ≡ S.way_of a b }
{
    length(a.x, a.y, b.x, b.y)
}

// The way from the last stroke to the beginning of the next; none before the first stroke.
#[tactic(auto, unfolding(crate::specs::Tally::driven_of))]
fn driven(e: Option<Point>, to: Point) -> u64
    ensures { result ≡ S.driven_of e to }
{
    match e {
        Some(at) => way(at, to),
        None => 0,
    }
}

// So much more for a pen, in a list by pens.
#[tactic(auto, unfolding(crate::specs::Tally::for_pen))]
pub fn for_pen(list: [u64; 9], pen: u8, more: u64) -> [u64; 9]
    ensures { result ≡ S.for_pen list pen more }
{
    let mut changed = list;
    if pen < 9 {
        let k = pen as usize;
        changed[k] = sum(changed[k], more);
    }
    changed
}

// The ends of a stroke.
fn start(s: Stroke) -> Point
    ensures { result ≡ S.start_of s }
{
    Point { x: s.x0, y: s.y0 }
}

fn finish(s: Stroke) -> Point
    ensures { result ≡ S.end_of s }
{
    Point { x: s.x1, y: s.y1 }
}

// One more stroke.
#[tactic(auto, unfolding(crate::specs::Tally::painted_of))]
fn painted(p: Paint, s: Stroke) -> Paint
    ensures { result ≡ S.painted_of p s }
{
    let from = start(s);
    let to = finish(s);
    Paint {
        strokes: for_pen(p.strokes, s.pen, 1),
        lengths: for_pen(p.lengths, s.pen, way(from, to)),
        empty: sum(p.empty, driven(p.end, from)),
        end: Some(to),
        area: widened(p.area, from, to),
    }
}

// Whether a stroke has the ends of its segment.
fn same_ends(a: Point, b: Point, s: Stroke) -> bool
    ensures { result ≡ S.same_ends a b s }
{
    a.x == s.x0 && a.y == s.y0 && b.x == s.x1 && b.y == s.y1
}

// A segment of which the limits leave a stroke.
#[tactic(auto, unfolding(crate::specs::Tally::shown_of))]
fn shown(t: Tally, a: Point, b: Point, s: Stroke) -> Tally
    ensures { result ≡ S.shown_of t a b s }
{
    let kept = Tally {
        paint: painted(t.paint, s),
        asked: widened(t.asked, a, b),
        ..t
    };
    if same_ends(a, b, s) {
        return Tally {
            whole: sum(t.whole, 1),
            ..kept
        };
    }
    Tally {
        clipped: sum(t.clipped, 1),
        ..kept
    }
}

// A segment that the limits hide.
#[tactic(auto, unfolding(crate::specs::Tally::hidden_of))]
fn hidden(t: Tally, a: Point, b: Point) -> Tally
    ensures { result ≡ S.hidden_of t a b }
{
    Tally {
        hidden: sum(t.hidden, 1),
        asked: widened(t.asked, a, b),
        ..t
    }
}

// A line, by what is drawn of it.
#[tactic(auto, unfolding(crate::specs::Tally::line_of))]
fn line(t: Tally, a: Point, b: Point, d: Drawn) -> Tally
    ensures { result ≡ S.line_of t a b d }
{
    match d {
        Drawn::Idle => t,
        Drawn::Hidden => hidden(t, a, b),
        Drawn::Stroke(s) => shown(t, a, b, s),
    }
}

// A segment, by what is drawn of it. One that was reached pen up is nobody's line, and is not counted.
#[tactic(auto, unfolding(crate::specs::Tally::counted_of))]
pub fn counted(t: Tally, s: Segment, d: Drawn) -> Tally
    ensures { result ≡ S.counted_of t s d }
{
    match s {
        Segment::Nothing | Segment::PenUp => t,
        Segment::Line(a, b) => line(t, a, b, d),
    }
}
