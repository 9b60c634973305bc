// Where the pen is: locations, positions, page points, limits, over the settings.
ghost use Rattle.std.specs.Prelude.{◌≡◌};
ghost use Rattle.exact.specs.Fit.{Bd};
ghost use Rattle.plane.specs.Bounds.{AxisBounds, Locatable, most_number, most_product};
ghost use Rattle.plane.specs.Position.{absolute_of};
ghost use Rattle.hpgl.specs.Place as P;
ghost use Rattle.hpgl.specs.Valid.{ValidSettings, LocatablePosition, Placed};
ghost use Rattle.reader.specs.Sizes.{SmallPair};
ghost use Rattle.rulekit.specs.Hand.{frame_of, location_in};

use super::numbers::ONE;
use clip::{Point, Rect};
use exact::nearest_div;
use hpgl::{Position, Settings};
use placing::position::{absolute, axis_of, in_range, location, relative};
use plane::position::{Axis, ExactPosition};
use reader::Coordinates;
use turns::limits::limits;
use turns::turn::{Rows, rows_of, turned};

// What the settings make of a pair, made once for many pairs: the axes, the table of the turn, the limits.
#[derive(Clone, Copy)]
pub struct Frame {
    pub x: Axis,
    pub y: Axis,
    pub rows: Rows,
    pub limits: Rect,
}

// A number that is rounded first.
pub fn rounded(n: i64) -> i64
    requires { Bd n most_number }
    ensures { result ≡ P.rounded n }
{
    nearest_div(n, ONE)
}

// Two functions for the two axes: they read other fields, and what they do with them is one call.
pub fn axis_x(s: Settings) -> Axis
    requires { ValidSettings s }
    ensures { result ≡ P.axis_x s }
{
    let range = s.scale.x;
    axis_of(s.scale.on, s.p1.x, s.p2.x, range.min, range.max)
}

pub fn axis_y(s: Settings) -> Axis
    requires { ValidSettings s }
    ensures { result ≡ P.axis_y s }
{
    let range = s.scale.y;
    axis_of(s.scale.on, s.p1.y, s.p2.y, range.min, range.max)
}

#[tactic(auto, unfolding(hpgl::specs::Place::limits))]
pub fn limits_of(s: Settings) -> Rect
    requires { ValidSettings s }
    ensures { result ≡ P.limits s }
{
    limits(s.hard, s.window.set, s.window.area, s.turn)
}

#[tactic(auto, unfolding(crate::specs::Hand::frame_of))]
pub fn frame_of(s: Settings) -> Frame
    requires { ValidSettings s }
    ensures { result ≡ frame_of s }
{
    let x = axis_x(s);
    let y = axis_y(s);
    let rows = rows_of(s.turn);
    let limits = limits_of(s);
    Frame { x, y, rows, limits }
}

// The location of a position, by a frame that is at hand.
pub fn located_in(f: Frame, p: Position) -> Point
    requires { Locatable f.x p.x × Locatable f.y p.y }
    ensures { result ≡ location_in f p }
{
    let x = location(f.x, p.x);
    let y = location(f.y, p.y);
    Point { x, y }
}

// The location of a position. No frame is made for it: of one it would need the axes alone.
#[tactic(auto, unfolding(hpgl::specs::Place::location))]
pub fn located(s: Settings, p: Position) -> Point
    requires { ValidSettings s × LocatablePosition s p }
    ensures { result ≡ P.location s p }
{
    let x = location(axis_x(s), p.x);
    let y = location(axis_y(s), p.y);
    Point { x, y }
}

#[tactic(auto, unfolding(hpgl::specs::Place::in_range))]
pub fn reachable(p: Point) -> bool
    ensures { result ≡ P.in_range p }
{
    in_range(p.x) && in_range(p.y)
}

// The position of a pair in absolute mode, on its axes.
pub fn absolute_on(x: Axis, y: Axis, n: Coordinates) -> Position
    requires { AxisBounds x × AxisBounds y × SmallPair n }
    ensures { result ≡ record { x = absolute_of x n.x; y = absolute_of y n.y } }
{
    let across = absolute(x, n.x);
    let up = absolute(y, n.y);
    Position { x: across, y: up }
}

// The position of a pair in absolute mode.
pub fn absolute_position(s: Settings, n: Coordinates) -> Position
    requires { ValidSettings s × SmallPair n }
    ensures { result ≡ P.absolute_position s n }
{
    absolute_on(axis_x(s), axis_y(s), n)
}

// The position of a pair in relative mode.
#[tactic(auto, unfolding(hpgl::specs::Place::relative_position))]
pub fn relative_position(p: Position, n: Coordinates) -> Position
    requires { Bd p.x.offset most_product × Bd p.y.offset most_product × SmallPair n }
    ensures { result ≡ P.relative_position p n }
{
    let x = relative(p.x, n.x);
    let y = relative(p.y, n.y);
    Position { x, y }
}

// The position whose base is a location.
#[tactic(auto, unfolding(hpgl::specs::Place::rest_at))]
pub fn rest_at(p: Point) -> Position
    ensures { result ≡ P.rest_at p }
{
    Position {
        x: ExactPosition {
            base: p.x,
            offset: 0,
        },
        y: ExactPosition {
            base: p.y,
            offset: 0,
        },
    }
}

// The page point of a position that may be kept.
pub fn page_point(s: Settings, p: Position) -> Point
    requires { ValidSettings s × Placed s p }
    ensures { result ≡ P.page_point s p }
{
    turned(located(s, p), s.turn)
}
