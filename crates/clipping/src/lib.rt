// A segment clipped to a box, in whole numbers, as specs/Clip.antt of the crate clip says.
#![tactic(auto)]

ghost use Rattle.std.specs.Prelude.{◌≡◌, true, pos};
ghost use Rattle.exact.specs.Whole.{◌<ᶻ◌};
ghost use Rattle.exact.specs.Fit.{Bd};
ghost use Rattle.clip.specs.Clip as S;
ghost use Rattle.clip.specs.Reach.{reach, most_extent, most_steps, SmallPoint, SmallRect};

use clip::{Point, Rect};
use exact::nearest_div;

// |q - p|, or 1 where they are equal. Three cases and no abs_diff, which answers a u64 and 0.
fn extent(p: i64, q: i64) -> i64
    requires { Bd p reach × Bd q reach }
    ensures { result ≡ S.extent p q }
{
    if p < q {
        q - p
    } else if q < p {
        p - q
    } else {
        1
    }
}

// The steps from p towards q until lo..hi is entered, each step 1/u.
fn axis_entry(lo: i64, hi: i64, p: i64, q: i64, u: i64) -> i64
    requires { Bd lo reach × Bd hi reach × Bd p reach × Bd q reach × Bd u most_extent }
    ensures { result ≡ S.axis_entry lo hi p q u }
{
    if p < q {
        (lo - p) * u
    } else if q < p {
        (p - hi) * u
    } else if p < lo || hi < p {
        u + 1
    } else {
        0
    }
}

// The library's maximum, in the definition's words.
fn larger(a: i64, b: i64) -> i64
    ensures { result ≡ S.larger a b }
{
    a.max(b)
}

// The steps from a towards b until the box is entered.
fn entry(r: Rect, a: Point, b: Point) -> i64
    requires { SmallRect r × SmallPoint a × SmallPoint b }
    ensures { result ≡ S.entry r a b }
{
    let x = axis_entry(r.left, r.right, a.x, b.x, extent(a.y, b.y));
    let y = axis_entry(r.bottom, r.top, a.y, b.y, extent(a.x, b.x));
    larger(0, larger(x, y))
}

// m, with the sign of the way from p to q.
fn toward(p: i64, q: i64, m: i64) -> i64
    requires { Bd p reach × Bd q reach × Bd m most_steps }
    ensures { result ≡ S.toward p q m }
{
    if p < q {
        m
    } else if q < p {
        -m
    } else {
        0
    }
}

// The nearest whole number m steps from p towards q, each step 1/u.
fn axis_place(p: i64, q: i64, u: i64, m: i64) -> i64
    requires { Bd p reach × Bd q reach × Bd u most_extent × Bd m most_steps × (pos 0 <ᶻ u) }
    ensures { result ≡ S.axis_place p q u m }
{
    nearest_div(u * p + toward(p, q, m), u)
}

// The nearest point m steps from a towards b.
fn place(a: Point, b: Point, m: i64) -> Point
    requires { SmallPoint a × SmallPoint b × Bd m most_steps }
    ensures { result ≡ S.place a b m }
{
    let x = axis_place(a.x, b.x, extent(a.y, b.y), m);
    let y = axis_place(a.y, b.y, extent(a.x, b.x), m);
    Point { x, y }
}

// The steps of the whole segment.
fn steps(a: Point, b: Point) -> i64
    requires { SmallPoint a × SmallPoint b }
    ensures { result ≡ S.steps a b }
{
    extent(a.x, b.x) * extent(a.y, b.y)
}

fn inside(r: Rect, p: Point) -> bool
    ensures { result ≡ S.inside r p }
{
    r.left <= p.x && p.x <= r.right && r.bottom <= p.y && p.y <= r.top
}

// The point in place of an end that is outside: where the way to the other end enters the box, rounded.
fn edge_point(r: Rect, outside: Point, other: Point) -> Point
    requires { SmallRect r × SmallPoint outside × SmallPoint other }
    ensures { result ≡ S.place outside other (S.entry r outside other) }
{
    place(outside, other, entry(r, outside, other))
}

// The four line types of the manual (source 001, chapter 10, page 10-1, "Windowing: Setting Up Soft-Clip Limits"), from the last point a to the new point b.

// 1. Inside window area to inside window area: nothing is cut.
fn inside_to_inside(r: Rect, a: Point, b: Point) -> Option<(Point, Point)>
    requires { (S.inside r a ≡ true) × (S.inside r b ≡ true) }
    ensures { result ≡ S.clip r a b }
{
    Some((a, b))
}

// 2. Inside window area to outside window area: it ends on an edge.
fn inside_to_outside(r: Rect, a: Point, b: Point) -> Option<(Point, Point)>
    requires { SmallRect r × SmallPoint a × SmallPoint b × (S.inside r a ≡ true) }
    ensures { result ≡ S.clip r a b }
{
    Some((a, edge_point(r, b, a)))
}

// 3. Outside window area to inside window area: it begins on an edge.
fn outside_to_inside(r: Rect, a: Point, b: Point) -> Option<(Point, Point)>
    requires { SmallRect r × SmallPoint a × SmallPoint b × (S.inside r b ≡ true) }
    ensures { result ≡ S.clip r a b }
{
    Some((edge_point(r, a, b), b))
}

// 4. Outside window area to outside window area: from edge to edge, each end found from a and b themselves, or hidden where the box is entered
// later than it is left.
fn outside_to_outside(r: Rect, a: Point, b: Point) -> Option<(Point, Point)>
    requires { SmallRect r × SmallPoint a × SmallPoint b }
    ensures { result ≡ S.clip r a b }
{
    let m = entry(r, a, b);
    let n = entry(r, b, a);
    if steps(a, b) < m + n {
        return None;
    }
    Some((place(a, b, m), place(b, a, n)))
}

// What is left of the segment from a to b in the box, by its type. A box and two points, each with its bound: callers have them apart.
pub fn clip(r: Rect, a: Point, b: Point) -> Option<(Point, Point)>
    requires { SmallRect r × SmallPoint a × SmallPoint b }
    ensures { result ≡ S.clip r a b }
{
    match (inside(r, a), inside(r, b)) {
        (true, true) => inside_to_inside(r, a, b),
        (true, false) => inside_to_outside(r, a, b),
        (false, true) => outside_to_inside(r, a, b),
        (false, false) => outside_to_outside(r, a, b),
    }
}

// The same for the loops that draw: most segments are of type 1, and are told here without a call and without a division.
pub fn kept_or_clipped(r: Rect, a: Point, b: Point) -> Option<(Point, Point)>
    requires { SmallRect r × SmallPoint a × SmallPoint b }
    ensures { result ≡ S.clip r a b }
{
    if inside(r, a) {
        if inside(r, b) {
            return Some((a, b));
        }
        // called at two places, so that it stays a call, and what divides is not built into the loops
        return clip(r, a, b);
    }
    clip(r, a, b)
}
