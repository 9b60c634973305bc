// The turn of the paper: an index into a table of two by two tables of whole numbers, each beside the number by which RO asks for it.
// An index and no enum: settings and the C interface's list of numbers hold a turn as its place in the table (SavedLaws.antt), and another turn is another row.
ghost use Rattle.std.specs.Prelude.{◌≡◌, ◌<◌, position};
ghost use Rattle.std.specs.Ordering.{int_eq};
ghost use Rattle.exact.specs.Fit.{Bd};
ghost use Rattle.clip.specs.Reach.{SmallPoint, SmallRect};
ghost use Rattle.turns.specs.Turn.{turn_count, find_turn, found_of, along_of, rows_of, transposed_of, turned_by, turned_of, turned_back_of, rebased_of, lesser_of, greater_of, ordered_of, turned_box_of, turned_back_box_of, UnitRows};

use clip::{Point, Rect};

pub const TURN_COUNT: usize = 4;

// A turn's table, looked up once for many points: its first row is xx, xy.
#[derive(Clone, Copy)]
pub struct Rows {
    pub xx: i64,
    pub xy: i64,
    pub yx: i64,
    pub yy: i64,
}

// A turn: the number by which RO asks for it, and its table.
#[derive(Clone, Copy)]
struct Turn {
    degrees: i64,
    table: [[i64; 2]; 2],
}

const TURNS: [Turn; TURN_COUNT] = [
    Turn {
        degrees: 0,
        table: [[1, 0], [0, 1]],
    },
    Turn {
        degrees: 90,
        table: [[0, -1], [1, 0]],
    },
    Turn {
        degrees: 180,
        table: [[-1, 0], [0, -1]],
    },
    Turn {
        degrees: 270,
        table: [[0, 1], [-1, 0]],
    },
];

// The first of some turns that has a number.
fn first_with(turns: &[Turn], degrees: i64) -> Option<usize>
    ensures { result ≡ position (λ (t : Turn). int_eq t.degrees degrees) turns.now }
{
    turns.iter().position(|t| t.degrees == degrees)
}

// The turn that RO asks for by a number, if one has it.
pub fn find_turn(degrees: i64) -> Option<usize>
    ensures { result ≡ found_of (find_turn degrees) }
{
    first_with(&TURNS, degrees)
}

// A row or a column of a table times a point.
fn along(a: i64, b: i64, p: Point) -> i64
    requires { Bd a 1 × Bd b 1 × SmallPoint p }
    ensures { result ≡ along_of a b p.x p.y }
{
    a * p.x + b * p.y
}

pub fn rows_of(turn: usize) -> Rows
    requires { turn < turn_count }
    ensures { result ≡ rows_of turn }
{
    let [[xx, xy], [yx, yy]] = TURNS[turn].table;
    Rows { xx, xy, yx, yy }
}

// A table times a point.
pub fn turned_by(t: Rows, p: Point) -> Point
    requires { UnitRows t × SmallPoint p }
    ensures { result ≡ turned_by t p }
{
    Point {
        x: along(t.xx, t.xy, p),
        y: along(t.yx, t.yy, p),
    }
}

// The page point of a point.
pub fn turned(p: Point, turn: usize) -> Point
    requires { SmallPoint p × (turn < turn_count) }
    ensures { result ≡ turned_of p turn }
{
    turned_by(rows_of(turn), p)
}

// The table whose rows are a table's columns.
fn transposed(t: Rows) -> Rows
    ensures { result ≡ transposed_of t }
{
    Rows {
        xy: t.yx,
        yx: t.xy,
        ..t
    }
}

// The point of a page point: by the transposed table.
pub fn turned_back(p: Point, turn: usize) -> Point
    requires { SmallPoint p × (turn < turn_count) }
    ensures { result ≡ turned_back_of p turn }
{
    turned_by(transposed(rows_of(turn)), p)
}

// The point that has, under a new turn, the page point that a point has under the old one.
pub fn rebased(p: Point, old: usize, new: usize) -> Point
    requires { SmallPoint p × (old < turn_count) × (new < turn_count) }
    ensures { result ≡ rebased_of p old new }
{
    turned_back(turned(p, old), new)
}

// The library's minimum and maximum, in the definitions' words.
pub fn lesser(a: i64, b: i64) -> i64
    ensures { result ≡ lesser_of a b }
{
    a.min(b)
}

pub fn greater(a: i64, b: i64) -> i64
    ensures { result ≡ greater_of a b }
{
    a.max(b)
}

// The box of two corners, put in order.
pub fn ordered(p: Point, q: Point) -> Rect
    ensures { result ≡ ordered_of p q }
{
    Rect {
        left: lesser(p.x, q.x),
        bottom: lesser(p.y, q.y),
        right: greater(p.x, q.x),
        top: greater(p.y, q.y),
    }
}

// The box on the page: two corners turned, and put in order.
// Two functions and no turning handed over as a closure: that would be longer than the two calls it saves.
pub fn turned_box(r: Rect, turn: usize) -> Rect
    requires { SmallRect r × (turn < turn_count) }
    ensures { result ≡ turned_box_of r turn }
{
    let p = turned(
        Point {
            x: r.left,
            y: r.bottom,
        },
        turn,
    );
    let q = turned(
        Point {
            x: r.right,
            y: r.top,
        },
        turn,
    );
    ordered(p, q)
}

// The box whose page is a box: two corners turned back, and put in order.
pub fn turned_back_box(r: Rect, turn: usize) -> Rect
    requires { SmallRect r × (turn < turn_count) }
    ensures { result ≡ turned_back_box_of r turn }
{
    let p = turned_back(
        Point {
            x: r.left,
            y: r.bottom,
        },
        turn,
    );
    let q = turned_back(
        Point {
            x: r.right,
            y: r.top,
        },
        turn,
    );
    ordered(p, q)
}
