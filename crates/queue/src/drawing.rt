// draw: the segment that waits first, and what is left of it within the limits in force.
ghost use Rattle.std.specs.Prelude.{◌≡◌};
ghost use Rattle.clip.specs.Reach.{SmallRect};
ghost use Rattle.sines.specs.Table as T;
ghost use Rattle.turns.specs.Turn.{UnitRows};
ghost use Rattle.hpgl.specs.Machine as M;
ghost use Rattle.hpgl.specs.Place as P;
ghost use Rattle.hpgl.specs.Segment as G;
ghost use Rattle.hpgl.specs.Valid.{ValidSettings, SmallEdge, ValidCircle, ValidWork};
ghost use Rattle.queue.specs.First as S;
ghost use Rattle.queue.specs.Corners as C;

use clip::{Point, Rect};
use clipping::kept_or_clipped;
use hpgl::{Circle, Core, Drawn, Edge, Segment, Stroke, Work};
use placing::arc::bend;
use placing::circle::vertex_point;
use rulekit::places::limits_of;
use turns::turn::{Rows, rows_of, turned_by};

#[tactic(auto, unfolding(hpgl::specs::Machine::stroke_of))]
fn stroke_of(pen: u8, c: Option<(Point, Point)>) -> Drawn
    ensures { result ≡ M.stroke_of pen c }
{
    match c {
        None => Drawn::Hidden,
        Some((s, t)) => Drawn::Stroke(Stroke {
            pen,
            x0: s.x,
            y0: s.y,
            x1: t.x,
            y1: t.y,
        }),
    }
}

// A vertex of a circle, on the page.
pub fn vertex(rows: Rows, o: Circle, i: u16, sines: &[u32]) -> Point
    requires { UnitRows rows × ValidCircle o i 0 × (sines.now ≡ T.sines) }
    ensures { result ≡ C.vertex_at rows o i }
{
    if i == 0 {
        return turned_by(rows, o.start);
    }
    let angle = bend(o.sweep, o.angle as usize, i as usize);
    turned_by(rows, vertex_point(o.x, o.y, o.radius, sines, angle))
}

// The work without its first segment; a reply that waits is none.
#[tactic(auto, unfolding(hpgl::specs::Machine::work_after))]
pub fn work_after(w: Work) -> Work
    requires { ValidWork w }
    ensures { result ≡ M.work_after w }
{
    match w {
        Work::Nothing | Work::Line(..) => Work::Nothing,
        Work::Chords(o, i, n) => {
            if n <= 1 {
                Work::Nothing
            } else {
                Work::Chords(o, i + 1, n - 1)
            }
        }
        Work::Edges(i, n) => {
            if n <= 1 {
                Work::Nothing
            } else {
                Work::Edges(i + 1, n - 1)
            }
        }
        Work::Answer(_) => w,
    }
}

// The place in the store of the edge that waits first; 0 where none waits.
#[tactic(auto, unfolding(crate::specs::First::edge_place))]
pub fn edge_place(w: Work) -> usize
    ensures { result ≡ S.edge_place w }
{
    if let Work::Edges(i, n) = w {
        if n == 0 { 0 } else { i as usize }
    } else {
        0
    }
}

// Where the first waiting chord begins, on the page; of other work the origin.
#[tactic(auto, unfolding(crate::specs::Corners::corner_of))]
pub fn corner(rows: Rows, w: Work, sines: &[u32]) -> Point
    requires { UnitRows rows × ValidWork w × (sines.now ≡ T.sines) }
    ensures { result ≡ C.corner_of rows w }
{
    if let Work::Chords(o, i, _) = w {
        vertex(rows, o, i, sines)
    } else {
        Point { x: 0, y: 0 }
    }
}

// Where it ends, and the next one begins; the origin also where none waits.
#[tactic(auto, unfolding(crate::specs::Corners::next_corner_of))]
pub fn next_corner(rows: Rows, w: Work, sines: &[u32]) -> Point
    requires { UnitRows rows × ValidWork w × (sines.now ≡ T.sines) }
    ensures { result ≡ C.next_corner_of rows w }
{
    if let Work::Chords(o, i, n) = w {
        if n == 0 {
            Point { x: 0, y: 0 }
        } else {
            vertex(rows, o, i + 1, sines)
        }
    } else {
        Point { x: 0, y: 0 }
    }
}

// The segment that waits first. e is the edge at its place, so that the store, which is large, is not handed on; a chord goes from `from` to `to`.
#[tactic(auto, unfolding(crate::specs::Corners::segment_in, crate::specs::Corners::edge_in))]
pub fn segment(rows: Rows, e: Edge, w: Work, from: Point, to: Point) -> Segment
    requires { UnitRows rows × SmallEdge e }
    ensures { result ≡ C.segment_in rows e w from to }
{
    match w {
        Work::Nothing | Work::Answer(_) => Segment::Nothing,
        Work::Line(a, b) => Segment::Line(a, b),
        Work::Chords(_, _, n) => {
            if n == 0 {
                Segment::Nothing
            } else {
                Segment::Line(from, to)
            }
        }
        Work::Edges(_, n) => {
            if n == 0 {
                Segment::Nothing
            } else if e.down {
                let a = turned_by(rows, e.from);
                let b = turned_by(rows, e.to);
                Segment::Line(a, b)
            } else {
                Segment::PenUp
            }
        }
    }
}

// What is drawn of a segment.
#[tactic(auto, unfolding(hpgl::specs::Segment::drawn_of))]
pub fn drawn_of(limits: Rect, pen: u8, s: Segment) -> Drawn
    requires { SmallRect limits × G.SmallSegment s }
    ensures { result ≡ G.drawn_of limits pen s }
{
    match s {
        Segment::Nothing => Drawn::Idle,
        Segment::PenUp => Drawn::Hidden,
        Segment::Line(a, b) => stroke_of(pen, kept_or_clipped(limits, a, b)),
    }
}

// The segment that waits first, by itself: the table of the turn and the corners are looked up for it alone.
pub fn first_segment(c: Core, e: Edge, w: Work, sines: &[u32]) -> Segment
    requires { ValidSettings c.settings × SmallEdge e × ValidWork w × (sines.now ≡ T.sines) }
    ensures { result ≡ C.first_segment c.settings e w }
{
    let rows = rows_of(c.settings.turn);
    let from = corner(rows, w, sines);
    let to = next_corner(rows, w, sines);
    segment(rows, e, w, from, to)
}

// What is drawn of it.
pub fn draw_first(c: Core, e: Edge, w: Work, sines: &[u32]) -> Drawn
    requires { ValidSettings c.settings × SmallEdge e × ValidWork w × (sines.now ≡ T.sines) }
    ensures { result ≡ G.drawn_of (P.limits c.settings) c.carriage.pen.number (C.first_segment c.settings e w) }
{
    let s = first_segment(c, e, w, sines);
    drawn_of(limits_of(c.settings), c.carriage.pen.number, s)
}
