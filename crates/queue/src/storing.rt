// What an action leaves in the store and in the waiting work.
ghost use Rattle.std.specs.Prelude.{◌≡◌, List, ℕ, ◌<◌, set};
ghost use Rattle.hpgl.specs.declared.Edge.{Edge};
ghost use Rattle.hpgl.specs.Machine as M;
ghost use Rattle.hpgl.specs.Numbers.{most_edges};
ghost use Rattle.hpgl.specs.Valid.{ValidAction};

use clip::Point;
use hpgl::{Action, Edge, Store, Work};
use placing::arc::parts;

fn edge(p: Point, q: Point) -> Edge
    ensures { result ≡ M.edge p q }
{
    Edge {
        from: p,
        to: q,
        down: true,
    }
}

// The four edges of a rectangle, first along x, all pen down: four stores, where a slice of an array would be made first and copied.
#[tactic(auto, unfolding(hpgl::specs::Machine::rectangle_edges))]
fn rectangle_edges(s: Store, p: Point, q: Point) -> Store
    ensures { result.edges ≡ M.rectangle_edges s.edges p q }
{
    let mut t = s;
    let along = Point { x: q.x, y: p.y };
    let back = Point { x: p.x, y: q.y };
    t.edges[0] = edge(p, along);
    t.edges[1] = edge(along, q);
    t.edges[2] = edge(q, back);
    t.edges[3] = edge(back, p);
    t
}

// One edge more, at a place that is free.
fn joined(s: Store, count: u8, e: Edge) -> Store
    requires { count < most_edges }
    ensures { result.edges ≡ set s.edges count e }
{
    let mut t = s;
    let k = count as usize;
    t.edges[k] = e;
    t
}

// The store after an action of a polygon that had `count` edges.
#[tactic(auto, unfolding(hpgl::specs::Machine::stored))]
pub fn stored(s: Store, count: u8, a: Action) -> Store
    requires { ValidAction count a }
    ensures { result.edges ≡ M.stored s.edges count a }
{
    match a {
        Action::Join(e) => joined(s, count, e),
        Action::Rectangle(p, q, _) => rectangle_edges(s, p, q),
        Action::Keep | Action::Line(..) | Action::Chords(_) | Action::Outline | Action::Answer(_) =>
            s,
    }
}

// What waits after an action of a polygon that has `count` edges now, whatever they are and the turn. It asks only that a circle's chords can be counted.
#[tactic(auto, unfolding(hpgl::specs::Machine::queued))]
pub fn queued(count: u8, a: Action) -> Work
    requires { ValidAction 0 a }
    ensures { (t : ℕ) (es : List Edge) → result ≡ M.queued t es count a }
{
    match a {
        Action::Keep | Action::Join(_) => Work::Nothing,
        Action::Line(p, q) => Work::Line(p, q),
        Action::Chords(o) => Work::Chords(o, 0, parts(o.sweep, o.angle as usize) as u16),
        Action::Outline => Work::Edges(0, count),
        Action::Rectangle(_, _, inked) => {
            if inked {
                Work::Edges(0, count)
            } else {
                Work::Nothing
            }
        }
        Action::Answer(r) => Work::Answer(r),
    }
}

// How many segments wait.
#[tactic(auto, unfolding(hpgl::specs::Machine::waiting))]
pub fn waiting(w: Work) -> u16
    ensures { result ≡ M.waiting w }
{
    match w {
        Work::Nothing | Work::Answer(_) => 0,
        Work::Line(..) => 1,
        Work::Chords(_, _, n) => n,
        Work::Edges(_, n) => n as u16,
    }
}
