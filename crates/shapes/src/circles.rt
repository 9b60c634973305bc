// CI: its chord angle, the range of its four points, and the circle whose chords are drawn.
ghost use Rattle.std.specs.Prelude.{◌≡◌, ◌&&◌};
ghost use Rattle.exact.specs.Whole.{◌≤?◌};
ghost use Rattle.exact.specs.Fit.{Bd};
ghost use Rattle.reader.specs.Sizes.{Small, SmallPair};
ghost use Rattle.plane.specs.Bounds.{most_number};
ghost use Rattle.hpgl.specs.Place as P;
ghost use Rattle.hpgl.specs.Rules as R;
ghost use Rattle.hpgl.specs.Valid.{ValidCore};

use super::moves::inked;
use clip::Point;
use exact::nearest_div;
use hpgl::{Acted, Action, Circle, Core};
use placing::circle::centre_of;
use plane::circle::Way;
use reader::{Coordinates, Numbers};
use rulekit::acts::{done, refuse};
use rulekit::numbers::{
    DEFAULT_ANGLE, LEAST_ANGLE, MOST_ANGLE, OUT_OF_RANGE, TENTH, TOO_FAR, WHOLE_TURN,
};
use rulekit::places::{axis_x, axis_y, located, reachable, relative_position};

// Whether a number lies between two others, or is one of them.
pub fn from_to(least: i64, n: i64, most: i64) -> bool
    ensures { result ≡ ((least ≤? n) && (n ≤? most)) }
{
    least <= n && n <= most
}

// The location of the point a way from the position.
fn point_at(c: Core, way: Coordinates) -> Point
    requires { ValidCore c × SmallPair way }
    ensures { result ≡ P.location c.settings (P.relative_position c.carriage.position way) }
{
    located(c.settings, relative_position(c.carriage.position, way))
}

// Whether it is in range.
fn way_fits(c: Core, way: Coordinates) -> bool
    requires { ValidCore c × SmallPair way }
    ensures { result ≡ P.in_range (P.location c.settings (P.relative_position c.carriage.position way)) }
{
    reachable(point_at(c, way))
}

// Whether the four points at 0, 90, 180 and 270 degrees are in range.
fn circle_fits(c: Core, radius: i64) -> bool
    requires { ValidCore c × Bd radius most_number }
    ensures { result ≡ R.circle_fits c radius }
{
    way_fits(c, Coordinates { x: radius, y: 0 })
        && way_fits(c, Coordinates { x: 0, y: radius })
        && way_fits(c, Coordinates { x: -radius, y: 0 })
        && way_fits(c, Coordinates { x: 0, y: -radius })
}

// The circle about the position.
fn circle_of(c: Core, radius: i64, angle: u16) -> Circle
    requires { ValidCore c × Bd radius most_number }
    ensures { result ≡ R.circle c radius angle }
{
    let position = c.carriage.position;
    let x = centre_of(axis_x(c.settings), position.x);
    let y = centre_of(axis_y(c.settings), position.y);
    let start = point_at(c, Coordinates { x: radius, y: 0 });
    Circle {
        x,
        y,
        radius: Way { u: radius, v: 0 },
        angle,
        start,
        sweep: WHOLE_TURN,
    }
}

// A circle with a chord angle that is to be judged.
fn circle_with(c: Core, radius: i64, angle: i64) -> Acted
    requires { ValidCore c × Bd radius most_number }
    ensures { result ≡ R.circle_with c radius angle }
{
    if from_to(LEAST_ANGLE, angle, MOST_ANGLE) {
        if circle_fits(c, radius) {
            if inked(c) {
                return done(c, Action::Chords(circle_of(c, radius, angle as u16)));
            }
            return done(c, Action::Keep);
        }
        return refuse(c, TOO_FAR);
    }
    refuse(c, OUT_OF_RANGE)
}

// A chord angle in tenths of a degree: what is given for it, if anything is.
pub fn angle_or(absent: bool, given: i64) -> i64
    requires { Bd given most_number }
    ensures { result ≡ R.angle_or absent given }
{
    if absent {
        return DEFAULT_ANGLE;
    }
    nearest_div(given, TENTH)
}

#[tactic(auto, unfolding(hpgl::specs::Rules::chord_angle))]
fn chord_angle(n: Numbers) -> i64
    requires { Small n }
    ensures { result ≡ R.chord_angle n }
{
    angle_or(n.count == 1, n.second)
}

// CI, page 5-12 of the DraftPro manual: radius, chord angle.
pub fn ci_rule(c: Core, n: Numbers) -> Acted
    requires { ValidCore c × Small n }
    ensures { result ≡ R.ci_rule c n }
{
    circle_with(c, n.first, chord_angle(n))
}
