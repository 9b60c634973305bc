// Positions: whether one may be kept.
ghost use Rattle.std.specs.Prelude.{◌≡◌};
ghost use Rattle.plane.specs.Bounds.{AxisBounds};
ghost use Rattle.hpgl.specs.Valid.{ValidSettings};
ghost use Rattle.wellformed.specs.Sound as S;

use exact::floor_div;
use hpgl::{Position, Settings};
use placing::position::in_range;
use plane::position::{Axis, ExactPosition};
use rulekit::places::{axis_x, axis_y, located, reachable};

// The largest product of an offset and a span.
const MOST_PRODUCT: i64 = 2_000_000_000_000_000;

// The largest offset, found with no product.
fn room(a: Axis) -> i64
    requires { AxisBounds a }
    ensures { result ≡ S.room_of a }
{
    if a.span < 0 {
        return floor_div(MOST_PRODUCT, -a.span);
    }
    floor_div(MOST_PRODUCT, a.span)
}

fn locatable(a: Axis, p: ExactPosition) -> bool
    requires { AxisBounds a }
    ensures { result ≡ S.locatable_of a p }
{
    let most = room(a);
    if in_range(p.base) {
        if -most <= p.offset {
            return p.offset <= most;
        }
        return false;
    }
    false
}

pub fn placed(s: Settings, p: Position) -> bool
    requires { ValidSettings s }
    ensures { result ≡ S.placed_of s p }
{
    locatable(axis_x(s), p.x) && locatable(axis_y(s), p.y) && reachable(located(s, p))
}
