// Position on one axis: the exact one, as base and offset, and the location, which is its nearest whole number.
ghost use Rattle.std.specs.Prelude.{◌≡◌, pos};
ghost use Rattle.exact.specs.Fit.{Bd};
ghost use Rattle.exact.specs.Divide.{nearest_div};
ghost use Rattle.plane.specs.Position.{axis_of, absolute_of, relative_of, location_of, in_range_of};
ghost use Rattle.plane.specs.Bounds.{AxisBounds, Locatable, most_number, most_point, most_product};

use exact::nearest_div;
use plane::position::{Axis, ExactPosition};

// A location is in range from -REACH to REACH.
const REACH: i64 = 1_000_000;

// Ten-thousandths of a plotter unit, which numbers count without scaling.
const UNSCALED: i64 = 10_000;

// The scale that the settings make of the points P1, P2 and of the numbers that stand there.
// A flag and numbers, and no Option: the list that C keeps has the numbers of a scale that is off too (Saved.antt).
pub fn axis_of(scaled: bool, p1: i64, p2: i64, least: i64, most: i64) -> Axis
    requires { Bd p1 most_point × Bd p2 most_point × Bd least most_number × Bd most most_number }
    ensures { result ≡ axis_of scaled p1 p2 least most }
{
    if scaled {
        return Axis {
            origin: p1,
            least,
            span: p2 - p1,
            width: most - least,
        };
    }
    Axis {
        origin: 0,
        least: 0,
        span: 1,
        width: UNSCALED,
    }
}

// The position of a number in absolute mode.
pub fn absolute(a: Axis, n: i64) -> ExactPosition
    requires { AxisBounds a × Bd n most_number }
    ensures { result ≡ absolute_of a n }
{
    ExactPosition {
        base: a.origin,
        offset: n - a.least,
    }
}

// The position a number further. The offset may have grown through many moves; its product with the span has not.
pub fn relative(p: ExactPosition, n: i64) -> ExactPosition
    requires { Bd p.offset most_product × Bd n most_number }
    ensures { result ≡ relative_of p n }
{
    ExactPosition {
        base: p.base,
        offset: p.offset + n,
    }
}

// The nearest whole number to n / width. Most drawings have no scale, and a number that the compiler knows divides faster.
fn over_width(n: i64, width: i64) -> i64
    requires { Bd n 0x4000_0000_0000_0000 × (Bd width 0x2000_0000_0000_0000 × (width ≡ pos 0 → ⊥)) }
    ensures { result ≡ nearest_div n width }
{
    if width == UNSCALED {
        return nearest_div(n, UNSCALED);
    }
    nearest_div(n, width)
}

// The nearest whole number to the exact position, and of two the larger.
pub fn location(a: Axis, p: ExactPosition) -> i64
    requires { Locatable a p }
    ensures { result ≡ location_of a p }
{
    p.base + over_width(p.offset * a.span, a.width)
}

pub fn in_range(n: i64) -> bool
    ensures { result ≡ in_range_of n }
{
    -REACH <= n && n <= REACH
}
