// Circles: how many chords, the angle of a vertex, its way from the centre, and its location.
// The centre is split once, so that no vertex overflows: specs/Circle.antt of the crate plane says what a vertex is, CircleLaws.antt that the split finds it.
ghost use Rattle.std.specs.Prelude.{◌≡◌, ◌≤◌, ◌<◌, pos};
ghost use Rattle.exact.specs.Whole.{◌<ᶻ◌};
ghost use Rattle.exact.specs.Fit.{Bd};
ghost use Rattle.clip.specs.Reach.{reach};
ghost use Rattle.sines.specs.Table.{sines};
ghost use Rattle.plane.specs.Circle.{chords_of, angle_of, rotated_of, split_of, centre_of, from_centre, point_from_centre};
ghost use Rattle.plane.specs.Bounds.{AxisBounds, Locatable, WayBounds, CentreBounds, most_product, most_width, most_way, most_angle};

use clip::Point;
use exact::{floor_div, nearest_div};
use plane::circle::{Centre, Way};
use plane::position::{Axis, ExactPosition};
use sines::{cosine, sine};

// Tenths of a degree in a circle.
const CIRCLE: usize = 3600;

// What sines and cosines, and so rotated ways, are scaled by.
const SCALE: i64 = 100_000;

pub fn chords(angle: usize) -> usize
    requires { (0 < angle) × (angle ≤ most_angle) }
    ensures { result ≡ chords_of angle }
{
    (CIRCLE + angle - 1) / angle
}

// The angle of the vertex i; the last is the first again.
pub fn vertex_angle(angle: usize, i: usize) -> i64
    requires { (0 < angle) × (angle ≤ most_angle) }
    ensures { result ≡ angle_of angle i }
{
    if i < chords(angle) {
        (i * angle) as i64
    } else {
        0
    }
}

// The way turned by an angle, scaled.
pub fn rotated(w: Way, table: &[u32], angle: i64) -> Way
    requires { WayBounds w × (table.now ≡ sines) }
    ensures { result ≡ rotated_of w angle }
{
    let c = cosine(table, angle);
    let s = sine(table, angle);
    Way {
        u: w.u * c - w.v * s,
        v: w.u * s + w.v * c,
    }
}

// The whole part of n / w joins the base, and the rest is kept.
fn split(base: i64, n: i64, d: i64, w: i64) -> Centre
    requires { Bd base reach × Bd n most_product × Bd w most_width × (pos 0 <ᶻ w) }
    ensures { result ≡ split_of base n d w }
{
    let q = floor_div(n, w);
    Centre {
        base: base + q,
        part: n - q * w,
        span: d,
        width: w,
    }
}

// The centre on an axis, once for a circle. The width's sign goes to the span.
pub fn centre_of(a: Axis, p: ExactPosition) -> Centre
    requires { AxisBounds a × Locatable a p }
    ensures { result ≡ centre_of a p }
{
    let n = p.offset * a.span;
    if a.width < 0 {
        return split(p.base, -n, -a.span, -a.width);
    }
    split(p.base, n, a.span, a.width)
}

// The vertex on an axis, t from the centre, scaled.
pub fn vertex(c: Centre, t: i64) -> i64
    requires { CentreBounds c × Bd t most_way }
    ensures { result ≡ from_centre c t }
{
    c.base + nearest_div(c.part * SCALE + t * c.span, c.width * SCALE)
}

// The location of a vertex: a way from the centre, turned by an angle. A circle's way is (radius, 0).
pub fn vertex_point(cx: Centre, cy: Centre, w: Way, table: &[u32], angle: i64) -> Point
    requires { CentreBounds cx × CentreBounds cy × WayBounds w × (table.now ≡ sines) }
    ensures { result ≡ point_from_centre cx cy w angle }
{
    let t = rotated(w, table, angle);
    let x = vertex(cx, t.u);
    let y = vertex(cy, t.v);
    Point { x, y }
}
