// The fresh state, its core and its hard limits; the instructions IN, DF, IP, SC, RO, IW and SP. Pages are those of the DraftPro manual.
#![tactic(auto)]

ghost use Rattle.std.specs.Prelude.{◌≡◌, not, ◌&&◌, true, ◌<◌};
ghost use Rattle.exact.specs.Whole.{◌<?◌, ◌≡?◌};
ghost use Rattle.reader.specs.Sizes.{Small, SmallPair};
ghost use Rattle.turns.specs.Turn.{turn_count, ordered_of};
ghost use Rattle.hpgl.specs.declared.Action.TheVariants.{Keep};
ghost use Rattle.hpgl.specs.Place as P;
ghost use Rattle.hpgl.specs.Rules as R;
ghost use Rattle.hpgl.specs.Machine as M;
ghost use Rattle.hpgl.specs.Valid.{ShortPoint, ValidSettings, ValidCore};

use clip::{Point, Rect};
use exact::int16;
use hpgl::{
    Acted, Action, Carriage, Core, Edge, MOST_EDGES, Memory, Pen, Polygon, Range, Saved, Scale,
    Settings, State, Store, Window, Work,
};
use reader::{Coordinates, Numbers};
use rulekit::acts::{done, first_two, refuse};
use rulekit::changes::{
    with_carriage, with_corners, with_pen, with_position, with_relative, with_scale, with_settings,
    with_turn, with_window,
};
use rulekit::numbers::{MOST_PEN, OUT_OF_RANGE};
use rulekit::places::{absolute_position, located, page_point, reachable, rest_at, rounded};
use turns::turn::{find_turn, ordered, turned_back};

// The turn that is none, by its place in the table.
const UPRIGHT: usize = 0;

// Pens are numbered from 0, which paints nothing.
const NO_PEN: u8 = 0;

// The last two of four.
fn last_two(n: Numbers) -> Coordinates
    ensures { result ≡ record { x = n.third; y = n.fourth } }
{
    Coordinates {
        x: n.third,
        y: n.fourth,
    }
}

// A corner that is rounded first.
fn rounded_corner(n: Coordinates) -> Point
    requires { SmallPair n }
    ensures { result ≡ P.point (P.rounded n.x) (P.rounded n.y) }
{
    let x = rounded(n.x);
    let y = rounded(n.y);
    Point { x, y }
}

// Scaling off.
fn unscaled() -> Scale
    ensures { result ≡ R.unscaled }
{
    Scale {
        on: false,
        x: Range { min: 0, max: 0 },
        y: Range { min: 0, max: 0 },
    }
}

fn no_window() -> Window
    ensures { result ≡ R.no_window }
{
    Window {
        set: false,
        area: Rect {
            left: 0,
            bottom: 0,
            right: 0,
            top: 0,
        },
    }
}

fn left_bottom(r: Rect) -> Point
    ensures { result ≡ P.point r.left r.bottom }
{
    Point {
        x: r.left,
        y: r.bottom,
    }
}

fn right_top(r: Rect) -> Point
    ensures { result ≡ P.point r.right r.top }
{
    Point {
        x: r.right,
        y: r.top,
    }
}

// P1 and P2 are corners of the hard limits.
#[tactic(auto, unfolding(hpgl::specs::Rules::fresh_settings))]
pub fn fresh_settings(hard: Rect) -> Settings
    ensures { result ≡ R.fresh_settings hard }
{
    let p1 = left_bottom(hard);
    let p2 = right_top(hard);
    let scale = unscaled();
    let window = no_window();
    Settings {
        hard,
        p1,
        p2,
        scale,
        turn: UPRIGHT,
        window,
    }
}

#[tactic(auto, unfolding(hpgl::specs::Rules::no_polygon))]
fn no_polygon() -> Polygon
    ensures { result ≡ R.no_polygon }
{
    let origin = rest_at(Point { x: 0, y: 0 });
    Polygon {
        mode: false,
        bytes: 0,
        edges: 0,
        empty: true,
        first: origin,
        saved: Saved {
            position: origin,
            relative: false,
            down: false,
        },
    }
}

// The carriage at a page point, with a pen.
#[tactic(auto, unfolding(hpgl::specs::Rules::fresh_carriage))]
fn fresh_carriage(page: Point, pen: u8) -> Carriage
    ensures { result ≡ R.fresh_carriage page pen }
{
    let position = rest_at(page);
    let polygon = no_polygon();
    Carriage {
        position,
        pen: Pen {
            number: pen,
            down: false,
            changed: false,
        },
        relative: false,
        polygon,
        memory: Memory { refusal: 0 },
    }
}

#[tactic(auto, unfolding(hpgl::specs::Rules::fresh_core))]
pub fn fresh_core(hard: Rect) -> Core
    ensures { result ≡ R.fresh_core hard }
{
    let settings = fresh_settings(hard);
    let carriage = fresh_carriage(Point { x: 0, y: 0 }, NO_PEN);
    Core { settings, carriage }
}

// A corner of two numbers of 16 bits.
fn short(p: Point) -> bool
    ensures { result ≡ (R.int16 p.x && R.int16 p.y) }
{
    int16(p.x) && int16(p.y)
}

// Two corners differ in x and in y.
fn apart(p: Point, q: Point) -> bool
    ensures { result ≡ (not (p.x ≡? q.x) && not (p.y ≡? q.y)) }
{
    p.x != q.x && p.y != q.y
}

// The first corner is left of the second and below it.
fn below(p: Point, q: Point) -> bool
    ensures { result ≡ ((p.x <? q.x) && (p.y <? q.y)) }
{
    p.x < q.x && p.y < q.y
}

// What IP may set.
fn good_corners(p: Point, q: Point) -> bool
    ensures { result ≡ R.good_corners p q }
{
    short(p) && short(q) && apart(p, q)
}

// What a fresh machine may have as its hard limits.
pub fn good_limits(r: Rect) -> bool
    ensures { result ≡ M.good_limits r }
{
    let p = left_bottom(r);
    let q = right_top(r);
    short(p) && short(q) && below(p, q)
}

// The hard limits of a fresh machine: bad ones are replaced, so that every machine has some.
#[tactic(auto, unfolding(hpgl::specs::Machine::hard_limits))]
pub fn hard_limits(r: Rect) -> Rect
    ensures { result ≡ M.hard_limits r }
{
    if good_limits(r) {
        return r;
    }
    Rect {
        left: 0,
        bottom: 0,
        right: 1,
        top: 1,
    }
}

// The core under new settings: the page point stays, and the base becomes its location.
fn rebased(c: Core, s: Settings) -> Core
    requires { ValidCore c × (s.turn < turn_count) }
    ensures { result ≡ R.rebased c s }
{
    let page = page_point(c.settings, c.carriage.position);
    let rest = rest_at(turned_back(page, s.turn));
    Core {
        settings: s,
        carriage: with_position(c.carriage, rest),
    }
}

// New settings are carried out.
fn settled(c: Core, s: Settings) -> Acted
    requires { ValidCore c × (s.turn < turn_count) }
    ensures { result ≡ R.done (R.rebased c s) Keep }
{
    done(rebased(c, s), Action::Keep)
}

// IN (page 3-11): all as fresh, but page point and pen number stay.
#[tactic(auto, unfolding(hpgl::specs::Rules::in_rule))]
pub fn in_rule(c: Core) -> Acted
    requires { ValidCore c }
    ensures { result ≡ R.in_rule c }
{
    let page = page_point(c.settings, c.carriage.position);
    let settings = fresh_settings(c.settings.hard);
    let carriage = fresh_carriage(page, c.carriage.pen.number);
    done(Core { settings, carriage }, Action::Keep)
}

// DF (page 3-8): scaling off, no window, absolute mode.
#[tactic(auto, unfolding(hpgl::specs::Rules::df_rule))]
pub fn df_rule(c: Core) -> Acted
    requires { ValidCore c }
    ensures { result ≡ R.df_rule c }
{
    let plain = with_window(with_scale(c.settings, unscaled()), no_window());
    settled(with_carriage(c, with_relative(c.carriage, false)), plain)
}

#[tactic(auto, unfolding(hpgl::specs::Rules::set_corners))]
fn set_corners(c: Core, p: Point, q: Point) -> Acted
    requires { ValidCore c }
    ensures { result ≡ R.set_corners c p q }
{
    if good_corners(p, q) {
        settled(c, with_corners(c.settings, p, q))
    } else {
        refuse(c, OUT_OF_RANGE)
    }
}

// P2 at its distance from P1, for a new P1.
fn carried(s: Settings, p: Point) -> Point
    requires { ValidSettings s × ShortPoint p }
    ensures { result ≡ R.carried s p }
{
    Point {
        x: p.x + (s.p2.x - s.p1.x),
        y: p.y + (s.p2.y - s.p1.y),
    }
}

// IP (page 3-12): no numbers, both as fresh; two, P1, and P2 keeps its distance; four, both.
pub fn ip_rule(c: Core, n: Numbers) -> Acted
    requires { ValidCore c × Small n }
    ensures { result ≡ R.ip_rule c n }
{
    if n.count == 0 {
        let hard = c.settings.hard;
        return set_corners(c, left_bottom(hard), right_top(hard));
    }
    let p = rounded_corner(first_two(n));
    if n.count == 2 {
        return set_corners(c, p, carried(c.settings, p));
    }
    set_corners(c, p, rounded_corner(last_two(n)))
}

// The scale of SC's four numbers.
fn scale_of(n: Numbers) -> Scale
    ensures { result ≡ record { on = true; x = record { min = n.first; max = n.second }; y = record { min = n.third; max = n.fourth } } }
{
    Scale {
        on: true,
        x: Range {
            min: n.first,
            max: n.second,
        },
        y: Range {
            min: n.third,
            max: n.fourth,
        },
    }
}

// SC (page 3-14): no numbers, off; four, on, where min and max differ.
pub fn sc_rule(c: Core, n: Numbers) -> Acted
    requires { ValidCore c × Small n }
    ensures { result ≡ R.sc_rule c n }
{
    if n.count == 0 {
        return settled(c, with_scale(c.settings, unscaled()));
    }
    if n.first == n.second || n.third == n.fourth {
        return refuse(c, OUT_OF_RANGE);
    }
    settled(c, with_scale(c.settings, scale_of(n)))
}

#[tactic(auto, unfolding(hpgl::specs::Rules::set_turn))]
fn set_turn(c: Core, turn: usize) -> Acted
    requires { ValidCore c × (turn < turn_count) }
    ensures { result ≡ R.set_turn c turn }
{
    settled(c, with_turn(c.settings, turn))
}

// The turn of so many degrees, if the table of turns has one.
fn turn_to(c: Core, degrees: i64) -> Acted
    requires { ValidCore c }
    ensures { result ≡ R.turn_to c degrees }
{
    match find_turn(degrees) {
        Some(turn) => set_turn(c, turn),
        None => refuse(c, OUT_OF_RANGE),
    }
}

// RO (page 10-14): no number is 0.
pub fn ro_rule(c: Core, n: Numbers) -> Acted
    requires { ValidCore c × Small n }
    ensures { result ≡ R.ro_rule c n }
{
    if n.count == 0 {
        return turn_to(c, 0);
    }
    turn_to(c, rounded(n.first))
}

// A window of two corners, not turned.
fn window_of(p: Point, q: Point) -> Window
    ensures { result ≡ record { set = true; area = ordered_of p q } }
{
    let area = ordered(p, q);
    Window { set: true, area }
}

// Both corners must be in range.
#[tactic(auto, unfolding(hpgl::specs::Rules::set_window))]
fn set_window(c: Core, p: Point, q: Point) -> Acted
    ensures { result ≡ R.set_window c p q }
{
    if reachable(p) && reachable(q) {
        let limited = with_window(c.settings, window_of(p, q));
        done(with_settings(c, limited), Action::Keep)
    } else {
        refuse(c, OUT_OF_RANGE)
    }
}

// IW (page 10-9): no numbers, the window is removed; four, its corners in current units, in absolute sense.
pub fn iw_rule(c: Core, n: Numbers) -> Acted
    requires { ValidCore c × Small n }
    ensures { result ≡ R.iw_rule c n }
{
    let settings = c.settings;
    if n.count == 0 {
        let unlimited = with_window(settings, no_window());
        return done(with_settings(c, unlimited), Action::Keep);
    }
    let p = located(settings, absolute_position(settings, first_two(n)));
    let q = located(settings, absolute_position(settings, last_two(n)));
    set_window(c, p, q)
}

#[tactic(auto, unfolding(hpgl::specs::Rules::set_pen))]
fn set_pen(c: Core, number: u8) -> Acted
    ensures { result ≡ R.set_pen c number }
{
    let pen = Pen {
        number,
        ..c.carriage.pen
    };
    done(with_carriage(c, with_pen(c.carriage, pen)), Action::Keep)
}

// SP (page 4-16): no number is pen 0.
pub fn sp_rule(c: Core, n: Numbers) -> Acted
    requires { Small n }
    ensures { result ≡ R.sp_rule c n }
{
    if n.count == 0 {
        return set_pen(c, NO_PEN);
    }
    let number = rounded(n.first);
    if 0 <= number && number <= MOST_PEN {
        set_pen(c, number as u8)
    } else {
        refuse(c, OUT_OF_RANGE)
    }
}

// A fresh machine's state.
#[tactic(auto, unfolding(hpgl::specs::Machine::fresh_state))]
pub fn fresh_state(r: Rect) -> State
    ensures { result ≡ M.fresh_state r }
{
    let origin = Point { x: 0, y: 0 };
    let none = Edge {
        from: origin,
        to: origin,
        down: false,
    };
    State {
        reader: reading::fresh(),
        core: fresh_core(hard_limits(r)),
        store: Store {
            edges: [none; MOST_EDGES],
        },
        work: Work::Nothing,
    }
}
