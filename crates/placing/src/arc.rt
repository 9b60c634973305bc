// Arcs: the way from the centre to the position, how many chords, what the way is turned by at each vertex, and whether every vertex is in range.
// specs/Arc.antt of the crate plane says what, ArcLaws.antt what holds of it. A circle is the arc of a whole turn.
ghost use Rattle.std.specs.Prelude.{◌≡◌, ◌+◌, ◌*◌, ◌≤◌, ◌<◌, nat_abs};
ghost use Rattle.exact.specs.Fit.{Bd};
ghost use Rattle.sines.specs.Table.{sines};
ghost use Rattle.plane.specs.Arc.{way_of, way_fits, parts_of, bend_of, both_in_range, fits_from, ends_fit, round_fits, arc_fits};
ghost use Rattle.plane.specs.Bounds.{AxisBounds, Locatable, WayBounds, CentreBounds, most_number, most_angle, most_sweep};

use super::circle::{vertex, vertex_point};
use super::position::in_range;
use clip::Point;
use exact::nearest_div;
use plane::circle::{Centre, Way};
use plane::position::{Axis, ExactPosition};

// The largest way, in ten-thousandths: 32768 units.
const MOST: i64 = 327_680_000;

// What ways are scaled by where they are turned.
const SCALE: i64 = 100_000;

// The way on one axis, from the centre q to the position p.
pub fn way_from(a: Axis, p: ExactPosition, q: ExactPosition) -> i64
    requires { AxisBounds a × Locatable a p × Locatable a q }
    ensures { result ≡ way_of a p q }
{
    p.offset - q.offset + nearest_div((p.base - q.base) * a.width, a.span)
}

// Whether a way is at most 32768 units on each axis.
pub fn way_fits(w: Way) -> bool
    ensures { result ≡ way_fits w }
{
    -MOST <= w.u && w.u <= MOST && -MOST <= w.v && w.v <= MOST
}

// How large a number is, whatever its sign.
fn size(n: i64) -> usize
    requires { Bd n most_number }
    ensures { result ≡ nat_abs n }
{
    n.unsigned_abs() as usize
}

// How many chords.
pub fn parts(sweep: i64, angle: usize) -> usize
    requires { Bd sweep most_sweep × (0 < angle) × (angle ≤ most_angle) }
    ensures { result ≡ parts_of sweep angle }
{
    (size(sweep) + angle - 1) / angle
}

// What the way is turned by at vertex i: whole chord angles, and at the last the sweep.
pub fn bend(sweep: i64, angle: usize, i: usize) -> i64
    requires { Bd sweep most_sweep × (0 < angle) × (angle ≤ most_angle) }
    ensures { result ≡ bend_of sweep angle i }
{
    if i < parts(sweep, angle) {
        let n = (i * angle) as i64;
        if sweep < 0 {
            return -n;
        }
        return n;
    }
    sweep
}

fn both_in_range(p: Point) -> bool
    ensures { result ≡ both_in_range p }
{
    in_range(p.x) && in_range(p.y)
}

// Whether the two points at a distance from the centre on its axis are in range.
fn ends_fit(c: Centre, distance: usize) -> bool
    requires { CentreBounds c × (distance ≤ 2 * most_number) }
    ensures { result ≡ ends_fit c distance }
{
    let t = distance as i64;
    in_range(vertex(c, t * SCALE)) && in_range(vertex(c, -t * SCALE))
}

// Whether the points at the length of the way are in range, on both axes: then every vertex is.
// The two centres and the way one by one: a type of the three would ask callers for what these clauses ask, and more.
pub fn round_fits(cx: Centre, cy: Centre, w: Way) -> bool
    requires { CentreBounds cx × CentreBounds cy × WayBounds w }
    ensures { result ≡ round_fits cx cy w }
{
    let distance = size(w.u) + size(w.v);
    ends_fit(cx, distance) && ends_fit(cy, distance)
}

// Whether the vertices from one on, so many, are in range, one by one. No arc has more vertices than tenths of a degree in a turn, and the one where it starts.
pub fn each_fits(
    cx: Centre,
    cy: Centre,
    w: Way,
    table: &[u32],
    sweep: i64,
    angle: usize,
    from: usize,
    many: usize,
) -> bool
    requires { CentreBounds cx × CentreBounds cy × WayBounds w × (table.now ≡ sines) × Bd sweep most_sweep × (0 < angle) × (angle ≤ most_angle) × (from + many ≤ most_sweep + 1) }
    ensures { result ≡ fits_from cx cy w sweep angle from many }
{
    for i in from..from + many {
        if !both_in_range(vertex_point(cx, cy, w, table, bend(sweep, angle, i))) {
            return false;
        }
    }
    true
}

// Whether every vertex after the first is in range: in most drawings at a glance.
pub fn arc_fits(cx: Centre, cy: Centre, w: Way, table: &[u32], sweep: i64, angle: usize) -> bool
    requires { CentreBounds cx × CentreBounds cy × WayBounds w × (table.now ≡ sines) × Bd sweep most_sweep × (0 < angle) × (angle ≤ most_angle) }
    ensures { result ≡ arc_fits cx cy w sweep angle }
{
    round_fits(cx, cy, w) || each_fits(cx, cy, w, table, sweep, angle, 1, parts(sweep, angle))
}
