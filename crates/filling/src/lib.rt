// Filling: where the rows of a filled polygon cross its sides. specs/Filling.antt says what, proofs/..Laws.antt what holds of it.
#![tactic(auto)]

ghost use Rattle.std.specs.Prelude.{◌≡◌, ◌+◌, ◌<◌, pos, take};
ghost use Rattle.exact.specs.Whole.{◌<ᶻ◌};
ghost use Rattle.exact.specs.Fit.{Bd};
ghost use Rattle.clip.specs.Line.{nearest_whole};
ghost use Rattle.clip.specs.Reach.{reach};
ghost use Rattle.filling.specs.Filling as S;
ghost use Rattle.filling.specs.Sink.{sink};
ghost use Rattle.filling.specs.Bounds.{SmallSide, most_row};

use clip::Point;
use exact::{floor_div, nearest_div};
use turns::turn::{greater, lesser};

// A side of a polygon, between two page points.
#[derive(Clone, Copy)]
pub struct Side {
    pub from: Point,
    pub to: Point,
}

// The height of its lower end, and of its upper.
fn lower(e: Side) -> i64
    ensures { result ≡ S.lower e }
{
    lesser(e.from.y, e.to.y)
}

fn upper(e: Side) -> i64
    ensures { result ≡ S.upper e }
{
    greater(e.from.y, e.to.y)
}

// The first row at or above y, where rows are multiples of s.
fn row_from(y: i64, s: i64) -> i64
    requires { Bd y reach × (pos 0 <ᶻ s) }
    ensures { result ≡ S.row_from s y }
{
    -floor_div(-y, s)
}

// The first row that a side meets.
pub fn first_row(e: Side, s: i64) -> i64
    requires { SmallSide e × (pos 0 <ᶻ s) }
    ensures { result ≡ S.first_row s e }
{
    row_from(lower(e), s)
}

// The row past the last that it meets.
pub fn past_row(e: Side, s: i64) -> i64
    requires { SmallSide e × (pos 0 <ᶻ s) }
    ensures { result ≡ S.past_row s e }
{
    row_from(upper(e), s)
}

// How many rows it meets.
pub fn rows_met(e: Side, s: i64) -> i64
    requires { SmallSide e × (pos 0 <ᶻ s) }
    ensures { result ≡ pos (S.rows_met s e) }
{
    past_row(e, s) - first_row(e, s)
}

// How many of those are below row k.
pub fn rows_below(e: Side, s: i64, k: i64) -> i64
    requires { SmallSide e × (pos 0 <ᶻ s) × Bd k most_row }
    ensures { result ≡ pos (S.met_below s k e) }
{
    let past = past_row(e, s);
    let met = lesser(k, past) - first_row(e, s);
    if met < 0 { 0 } else { met }
}

// Whether it meets the row at y.
pub fn meets(e: Side, y: i64) -> bool
    ensures { result ≡ S.meets y e }
{
    lower(e) <= y && y < upper(e)
}

// Where the row at y crosses a side, rounded. A level side has no crossing; its start stands for one.
pub fn crossing(e: Side, y: i64) -> i64
    requires { SmallSide e × Bd y reach }
    ensures { result ≡ nearest_whole (S.crossing y e) }
{
    let rise = e.to.y - e.from.y;
    if rise == 0 {
        return e.from.x;
    }
    e.from.x + nearest_div((y - e.from.y) * (e.to.x - e.from.x), rise)
}

// Crossings of one row, the first n in order.
// An array with its length beside it, and no Vec: the library has no heap, and a row is passed by value.
#[derive(Clone, Copy)]
pub struct Crossings {
    pub xs: [i64; 114],
    pub n: usize,
}

// One crossing more: each place keeps the smaller number, and the larger is carried on.
pub fn inserted(c: Crossings, x: i64) -> Crossings
    requires { c.n < 114 }
    ensures { (result.n ≡ c.n + 1) × (take result.n result.xs ≡ sink x (take c.n c.xs)) }
{
    let Crossings { mut xs, n } = c;
    let mut carry = x;
    let row = &mut xs[..n];
    for place in row.iter_mut() {
        let small = lesser(carry, *place);
        carry = greater(carry, *place);
        *place = small;
    }
    xs[n] = carry;
    Crossings { xs, n: n + 1 }
}
