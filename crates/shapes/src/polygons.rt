// Polygons and rectangles: PM, EP, EA and ER. What the store holds is the caller's: a rule hands it an action.
ghost use Rattle.std.specs.Prelude.{◌≡◌, true, ◌+◌, ◌≤◌};
ghost use Rattle.reader.specs.Sizes.{Small};
ghost use Rattle.hpgl.specs.Numbers.{polygon_bytes, most_edges};
ghost use Rattle.hpgl.specs.Rules as R;
ghost use Rattle.hpgl.specs.Valid.{LocatablePosition, ValidCore};

use super::moves::{edge_to, inked};
use clip::Point;
use hpgl::{Acted, Action, Carriage, Core, Pen, Polygon, Position, Saved};
use reader::Numbers;
use rulekit::acts::{done, first_two, refuse};
use rulekit::changes::{with_carriage, with_pen, with_polygon, with_position};
use rulekit::numbers::{
    MODE_BYTES, OUT_OF_RANGE, POINT_BYTES, POLYGON_BYTES, POLYGON_FULL, RECTANGLE_BYTES, TOO_FAR,
};
use rulekit::places::{absolute_position, located, reachable, relative_position, rounded};

// PM0 and its point; PM1 and the point that it adds.
const MODE_AND_POINT: u16 = MODE_BYTES + POINT_BYTES;

// ---- PM

// The polygon that PM0 begins at the current position.
#[tactic(auto, unfolding(hpgl::specs::Rules::begun))]
fn begun(k: Carriage) -> Polygon
    ensures { result ≡ R.begun k }
{
    Polygon {
        mode: true,
        bytes: MODE_AND_POINT,
        edges: 0,
        empty: false,
        first: k.position,
        saved: Saved {
            position: k.position,
            relative: k.relative,
            down: k.pen.down,
        },
    }
}

#[tactic(auto, unfolding(hpgl::specs::Rules::pm0))]
fn pm0(c: Core) -> Acted
    ensures { result ≡ R.pm0 c }
{
    let k = c.carriage;
    if k.polygon.mode {
        refuse(c, OUT_OF_RANGE)
    } else {
        done(with_carriage(c, with_polygon(k, begun(k))), Action::Keep)
    }
}

fn differ(p: Point, q: Point) -> bool
    ensures { result ≡ R.differ p q }
{
    p.x != q.x || p.y != q.y
}

// Whether the subpolygon's end adds its first point.
fn closes(c: Core) -> bool
    requires { ValidCore c × (c.carriage.polygon.mode ≡ true) }
    ensures { result ≡ R.closes c }
{
    let k = c.carriage;
    if k.polygon.empty {
        return false;
    }
    let here = located(c.settings, k.position);
    differ(here, located(c.settings, k.polygon.first))
}

// The polygon after the end of a subpolygon that takes n bytes and k edges.
#[tactic(auto, unfolding(hpgl::specs::Rules::ended_with))]
fn ended_with(g: Polygon, mode: bool, n: u16, k: u8) -> Polygon
    requires { (g.bytes + n ≤ polygon_bytes) × (g.edges ≤ most_edges) × (k ≤ 1) }
    ensures { result ≡ R.ended_with g mode n k }
{
    Polygon {
        mode,
        bytes: g.bytes + n,
        edges: g.edges + k,
        empty: true,
        ..g
    }
}

fn lifted(p: Pen) -> Pen
    ensures { result ≡ R.lifted p }
{
    Pen {
        down: false,
        changed: false,
        ..p
    }
}

// The core after PM1.
#[tactic(auto, unfolding(hpgl::specs::Rules::ended))]
fn ended(c: Core, n: u16, edges: u8, p: Position) -> Core
    requires { (c.carriage.polygon.bytes + n ≤ polygon_bytes) × (c.carriage.polygon.edges ≤ most_edges) × (edges ≤ 1) }
    ensures { result ≡ R.ended c n edges p }
{
    let k = c.carriage;
    let moved = with_position(with_pen(k, lifted(k.pen)), p);
    let polygon = ended_with(k.polygon, true, n, edges);
    with_carriage(c, with_polygon(moved, polygon))
}

// PM1 in polygon mode. Apart from PM2: its own bytes count, and where there is no room nothing is changed.
fn pm1_in(c: Core) -> Acted
    requires { ValidCore c × (c.carriage.polygon.mode ≡ true) }
    ensures { result ≡ R.pm1_in c }
{
    let k = c.carriage;
    let g = k.polygon;
    if closes(c) {
        if g.bytes + MODE_AND_POINT <= POLYGON_BYTES {
            return done(ended(c, MODE_AND_POINT, 1, g.first), edge_to(c, g.first));
        }
        return refuse(c, POLYGON_FULL);
    }
    if g.bytes + MODE_BYTES <= POLYGON_BYTES {
        return done(ended(c, MODE_BYTES, 0, k.position), Action::Keep);
    }
    refuse(c, POLYGON_FULL)
}

// pm1 and pm2 are a test each before what differs: a function for both would take the rest as a closure, for one `if`.
#[tactic(auto, unfolding(hpgl::specs::Rules::pm1))]
fn pm1(c: Core) -> Acted
    requires { ValidCore c }
    ensures { result ≡ R.pm1 c }
{
    if c.carriage.polygon.mode {
        pm1_in(c)
    } else {
        refuse(c, OUT_OF_RANGE)
    }
}

// The core after PM2: position, mode and pen are those of PM0.
#[tactic(auto, unfolding(hpgl::specs::Rules::leave))]
fn leave(c: Core, n: u16, edges: u8) -> Core
    requires { (c.carriage.polygon.bytes + n ≤ polygon_bytes) × (c.carriage.polygon.edges ≤ most_edges) × (edges ≤ 1) }
    ensures { result ≡ R.leave c n edges }
{
    let k = c.carriage;
    let saved = k.polygon.saved;
    let left = Carriage {
        position: saved.position,
        pen: Pen {
            down: saved.down,
            changed: false,
            ..k.pen
        },
        relative: saved.relative,
        polygon: ended_with(k.polygon, false, n, edges),
        ..k
    };
    with_carriage(c, left)
}

// PM2 in polygon mode. Where the closing point has no room the polygon stays open.
fn pm2_in(c: Core) -> Acted
    requires { ValidCore c × (c.carriage.polygon.mode ≡ true) }
    ensures { result ≡ R.pm2_in c }
{
    if closes(c) {
        let g = c.carriage.polygon;
        if g.bytes + POINT_BYTES <= POLYGON_BYTES {
            return done(leave(c, POINT_BYTES, 1), edge_to(c, g.first));
        }
        return refuse(leave(c, 0, 0), POLYGON_FULL);
    }
    done(leave(c, 0, 0), Action::Keep)
}

#[tactic(auto, unfolding(hpgl::specs::Rules::pm2))]
fn pm2(c: Core) -> Acted
    requires { ValidCore c }
    ensures { result ≡ R.pm2 c }
{
    if c.carriage.polygon.mode {
        pm2_in(c)
    } else {
        refuse(c, OUT_OF_RANGE)
    }
}

// PM, page 6-14 of the DraftPro manual: 0 or none, 1, 2.
pub fn pm_rule(c: Core, n: Numbers) -> Acted
    requires { ValidCore c × Small n }
    ensures { result ≡ R.pm_rule c n }
{
    if n.count == 0 {
        return pm0(c);
    }
    let which = rounded(n.first);
    if which == 0 {
        return pm0(c);
    }
    if which == 1 {
        return pm1(c);
    }
    if which == 2 {
        return pm2(c);
    }
    refuse(c, OUT_OF_RANGE)
}

// ---- EP, EA, ER

// EP, page 6-9.
#[tactic(auto, unfolding(hpgl::specs::Rules::ep_rule))]
pub fn ep_rule(c: Core) -> Acted
    ensures { result ≡ R.ep_rule c }
{
    if inked(c) {
        done(c, Action::Outline)
    } else {
        done(c, Action::Keep)
    }
}

// The polygon that a rectangle leaves.
#[tactic(auto, unfolding(hpgl::specs::Rules::rectangular))]
fn rectangular(g: Polygon) -> Polygon
    ensures { result ≡ R.rectangular g }
{
    Polygon {
        mode: false,
        bytes: RECTANGLE_BYTES,
        edges: 4,
        empty: true,
        ..g
    }
}

// The rectangle between the current position and the opposite corner, if that is in range.
#[tactic(auto, unfolding(hpgl::specs::Rules::rectangle_to))]
fn rectangle_to(c: Core, p: Position) -> Acted
    requires { ValidCore c × LocatablePosition c.settings p }
    ensures { result ≡ R.rectangle_to c p }
{
    let corner = located(c.settings, p);
    if reachable(corner) {
        let k = c.carriage;
        let changed = with_carriage(c, with_polygon(k, rectangular(k.polygon)));
        let here = located(c.settings, k.position);
        done(changed, Action::Rectangle(here, corner, inked(c)))
    } else {
        refuse(c, TOO_FAR)
    }
}

// EA, page 5-16: the corner in absolute sense.
pub fn ea_rule(c: Core, n: Numbers) -> Acted
    requires { ValidCore c × Small n }
    ensures { result ≡ R.ea_rule c n }
{
    rectangle_to(c, absolute_position(c.settings, first_two(n)))
}

// ER, page 5-18: the corner in relative sense.
pub fn er_rule(c: Core, n: Numbers) -> Acted
    requires { ValidCore c × Small n }
    ensures { result ≡ R.er_rule c n }
{
    let here = c.carriage.position;
    rectangle_to(c, relative_position(here, first_two(n)))
}
