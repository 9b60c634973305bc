// Names and pairs: what PU, PD, PA and PR do, outside polygon mode and in it. They are the most of a drawing, so that they take of a core what they need:
// the frame of its settings, the hand, the polygon.
ghost use Rattle.std.specs.Prelude.{◌≡◌, true, false, not, ◌+◌, ◌≤◌, eqb};
ghost use Rattle.exact.specs.Fit.{Bd};
ghost use Rattle.clip.specs.Reach.{SmallPoint};
ghost use Rattle.plane.specs.Bounds.{AxisBounds, most_product};
ghost use Rattle.reader.specs.Sizes.{SmallPair};
ghost use Rattle.hpgl.specs.Numbers.{polygon_bytes, most_edges};
ghost use Rattle.hpgl.specs.Place as P;
ghost use Rattle.hpgl.specs.Rules as R;
ghost use Rattle.hpgl.specs.Valid.{LocatablePosition, ValidCore};
ghost use Rattle.rulekit.specs.Hand.{frame_of, carriage_of, core_of, moved_to, shifted_of, pointed_of, line_of, location_in, ValidHand, name_number};

use clip::Point;
use hpgl::{Action, Core, Edge, Pen, Polygon, Position, Segment, Settings};
use mnemonics::{PA, PD, PR, PU, known_in_polygon};
use reader::Coordinates;
use rulekit::hand::{Hand, Pointed, Shifted};
use rulekit::numbers::{PEN_BYTES, POINT_BYTES, POLYGON_BYTES, POLYGON_FULL, TOO_FAR, UNKNOWN};
use rulekit::places::{Frame, absolute_on, located, located_in, reachable, relative_position};
use turns::turn::turned_by;

// The pen's mark is spent by a pair, and by PA and PR.
fn spent(p: Pen) -> Pen
    ensures { result ≡ R.spent p }
{
    Pen {
        changed: false,
        ..p
    }
}

// The number of a name: unknown, or none.
#[tactic(auto, unfolding(rulekit::specs::Hand::name_number))]
pub fn name_number(mode: bool, op: usize) -> u8
    ensures { result ≡ name_number mode op }
{
    if mode && !known_in_polygon(op) {
        UNKNOWN
    } else {
        0
    }
}

// What the second letter does to the hand: PA, PD, PR and PU, pages 4-8, 4-10, 4-12 and 4-14 of the DraftPro manual.
#[tactic(auto, unfolding(hpgl::specs::Rules::letters))]
pub fn letters(h: Hand, op: usize) -> Hand
    ensures { (g : Polygon) → carriage_of result g ≡ R.letters (carriage_of h g) op }
{
    let pen = h.pen;
    match op {
        PU => Hand {
            pen: Pen {
                down: false,
                changed: pen.down,
                ..pen
            },
            ..h
        },
        PD => Hand {
            pen: Pen {
                down: true,
                changed: !pen.down,
                ..pen
            },
            ..h
        },
        PA => Hand {
            pen: spent(pen),
            relative: false,
            ..h
        },
        PR => Hand {
            pen: spent(pen),
            relative: true,
            ..h
        },
        _ => h,
    }
}

// Whether a pen has paint: pen 0 has none.
fn paints(p: Pen) -> bool
    ensures { result ≡ not (eqb p.number 0) }
{
    p.number != 0
}

// Whether the pen paints.
#[tactic(auto, unfolding(hpgl::specs::Rules::inked))]
pub fn inked(c: Core) -> bool
    ensures { result ≡ R.inked c }
{
    paints(c.carriage.pen)
}

// The hand at p.
fn moved(h: Hand, p: Position) -> Hand
    ensures { result ≡ moved_to h p }
{
    Hand {
        position: p,
        pen: spent(h.pen),
        ..h
    }
}

// A move outside polygon mode, to p with its location. The page points are computed only for a line.
fn move_to(f: Frame, h: Hand, here: Point, p: Position, to: Point) -> Shifted
    requires { ValidHand f h × SmallPoint to × (here ≡ location_in f h.position) }
    ensures result_value { (s : Settings) (g : Polygon) → f ≡ frame_of s → to ≡ P.location s p → shifted_of s g result ≡ R.move_to (core_of s h g) p }
    ensures here_value { (result.here ≡ to) × (result.hand.position ≡ p) }
{
    let there = moved(h, p);
    let segment = if h.pen.down && paints(h.pen) {
        let a = turned_by(f.rows, here);
        let b = turned_by(f.rows, to);
        Segment::Line(a, b)
    } else {
        Segment::Nothing
    };
    Shifted {
        hand: there,
        here: to,
        segment,
        number: 0,
    }
}

// The bytes of a point.
#[tactic(auto, unfolding(hpgl::specs::Rules::point_cost))]
fn point_cost(p: Pen) -> u16
    ensures { result ≡ R.point_cost p }
{
    if p.changed {
        POINT_BYTES + PEN_BYTES
    } else {
        POINT_BYTES
    }
}

// The polygon with one point more. The first of a subpolygon makes no edge.
#[tactic(auto, unfolding(hpgl::specs::Rules::longer))]
pub fn longer(g: Polygon, n: u16, p: Position) -> Polygon
    requires { (g.bytes + n ≤ polygon_bytes) × (g.edges ≤ most_edges) }
    ensures { result ≡ R.longer g n p }
{
    let bytes = g.bytes + n;
    if g.empty {
        Polygon {
            bytes,
            empty: false,
            first: p,
            ..g
        }
    } else {
        Polygon {
            bytes,
            edges: g.edges + 1,
            ..g
        }
    }
}

// The edge from the current position.
#[tactic(auto, unfolding(hpgl::specs::Rules::edge_to))]
pub fn edge_to(c: Core, p: Position) -> Action
    requires { ValidCore c × LocatablePosition c.settings p }
    ensures { result ≡ R.edge_to c p }
{
    let from = located(c.settings, c.carriage.position);
    let to = located(c.settings, p);
    Action::Join(Edge {
        from,
        to,
        down: c.carriage.pen.down,
    })
}

// A move in polygon mode, to p with its location: it stores a point and draws nothing.
fn store_point(h: Hand, here: Point, bytes: u16, p: Position, to: Point) -> Pointed
    requires { bytes ≤ polygon_bytes }
    ensures result_value { (s : Settings) (g : Polygon) → here ≡ P.location s h.position → to ≡ P.location s p → g.bytes ≡ bytes → pointed_of s h g result ≡ R.store_point (core_of s h g) p }
    ensures here_value { (f : Frame) → here ≡ location_in f h.position → to ≡ location_in f p → result.here ≡ location_in f result.hand.position }
{
    let n = point_cost(h.pen);
    let edge = Edge {
        from: here,
        to,
        down: h.pen.down,
    };
    if bytes + n <= POLYGON_BYTES {
        let there = moved(h, p);
        return Pointed {
            hand: there,
            here: to,
            edge,
            cost: n,
            number: 0,
        };
    }
    Pointed {
        hand: h,
        here,
        edge,
        cost: 0,
        number: POLYGON_FULL,
    }
}

// The position of a pair, by the mode.
#[tactic(auto, unfolding(hpgl::specs::Place::absolute_position, hpgl::specs::Rules::aimed, rulekit::specs::Hand::frame_of))]
fn aimed(f: Frame, h: Hand, n: Coordinates) -> Position
    requires axis_bounds { AxisBounds f.x × AxisBounds f.y × SmallPair n }
    requires bd { Bd h.position.x.offset most_product × Bd h.position.y.offset most_product }
    ensures { (s : Settings) (g : Polygon) → f ≡ frame_of s → result ≡ R.aimed (core_of s h g) n }
{
    if h.relative {
        relative_position(h.position, n)
    } else {
        absolute_on(f.x, f.y, n)
    }
}

// A pair outside polygon mode: a move to its position, if the location is in range. The location where the hand is comes along, found once for two moves.
pub fn shift(f: Frame, h: Hand, here: Point, n: Coordinates) -> Shifted
    requires { ValidHand f h × SmallPair n × (here ≡ location_in f h.position) }
    ensures result_value { (s : Settings) (g : Polygon) → f ≡ frame_of s → g.mode ≡ false → shifted_of s g result ≡ R.pair_rule (core_of s h g) n }
    ensures here_value { result.here ≡ location_in f result.hand.position }
{
    let p = aimed(f, h, n);
    let to = located_in(f, p);
    if reachable(to) {
        return move_to(f, h, here, p, to);
    }
    Shifted {
        hand: h,
        here,
        segment: Segment::Nothing,
        number: TOO_FAR,
    }
}

// A line to draw waits as one.
#[tactic(auto, unfolding(rulekit::specs::Hand::line_of))]
pub fn line_of(s: Segment) -> Action
    ensures { result ≡ line_of s }
{
    match s {
        Segment::Nothing | Segment::PenUp => Action::Keep,
        Segment::Line(a, b) => Action::Line(a, b),
    }
}

// A pair in polygon mode, of a polygon with so many bytes: a point at its position, if the location is in range. The polygon itself is the caller's.
pub fn point(f: Frame, h: Hand, here: Point, bytes: u16, n: Coordinates) -> Pointed
    requires { ValidHand f h × SmallPair n × (here ≡ location_in f h.position) × (bytes ≤ polygon_bytes) }
    ensures result_value { (s : Settings) (g : Polygon) → f ≡ frame_of s → g.mode ≡ true → g.bytes ≡ bytes → pointed_of s h g result ≡ R.pair_rule (core_of s h g) n }
    ensures here_value { result.here ≡ location_in f result.hand.position }
{
    let p = aimed(f, h, n);
    let to = located_in(f, p);
    if reachable(to) {
        return store_point(h, here, bytes, p, to);
    }
    Pointed {
        hand: h,
        here,
        edge: Edge {
            from: here,
            to,
            down: h.pen.down,
        },
        cost: 0,
        number: TOO_FAR,
    }
}
