// The settings as four rows: limits and turn, P1 and P2, scale, window.
ghost use Rattle.std.specs.Prelude.{◌≡◌, ◌≤◌, length};
ghost use Rattle.rows.specs.Rows.{over};
ghost use Rattle.saved.specs.Places.{limits_place, position_place};
ghost use Rattle.saved.specs.Saved as S;

use super::places::{CORNERS, LIMITS, SCALE, WINDOW};
use clip::{Point, Rect};
use hpgl::{Range, Scale, Settings, Window};
use rows::{Row, byte_of, flag_number, flag_of, place_number, put_row, row_at};

fn limits_row(hard: Rect, turn: usize) -> Row
    ensures { result ≡ S.limits_row hard turn }
{
    Row {
        a: hard.left,
        b: hard.bottom,
        c: hard.right,
        d: hard.top,
        e: place_number(turn),
    }
}

fn corners_row(p: Point, q: Point) -> Row
    ensures { result ≡ S.corners_row p q }
{
    Row {
        a: p.x,
        b: p.y,
        c: q.x,
        d: q.y,
        e: 0,
    }
}

fn scale_row(s: Scale) -> Row
    ensures { result ≡ S.scale_row s }
{
    let x = s.x;
    let y = s.y;
    Row {
        a: x.min,
        b: x.max,
        c: y.min,
        d: y.max,
        e: flag_number(s.on),
    }
}

fn window_row(w: Window) -> Row
    ensures { result ≡ S.window_row w }
{
    let area = w.area;
    Row {
        a: area.left,
        b: area.bottom,
        c: area.right,
        d: area.top,
        e: flag_number(w.set),
    }
}

// The box, or one of the two points or ranges, of a row: a function for each, as in the definition.
fn box_of(row: Row) -> Rect
    ensures { result ≡ S.box_of row }
{
    Rect {
        left: row.a,
        bottom: row.b,
        right: row.c,
        top: row.d,
    }
}

pub fn from_of(row: Row) -> Point
    ensures { result ≡ S.from_of row }
{
    Point { x: row.a, y: row.b }
}

pub fn to_of(row: Row) -> Point
    ensures { result ≡ S.to_of row }
{
    Point { x: row.c, y: row.d }
}

fn range_x(row: Row) -> Range
    ensures { result ≡ S.range_x row }
{
    Range {
        min: row.a,
        max: row.b,
    }
}

fn range_y(row: Row) -> Range
    ensures { result ≡ S.range_y row }
{
    Range {
        min: row.c,
        max: row.d,
    }
}

// The flag that ends a row, or the place of a turn.
pub fn flag_in(row: Row) -> bool
    ensures { result ≡ S.flag_in row }
{
    flag_of(row.e)
}

fn turn_in(row: Row) -> usize
    ensures { result ≡ S.small_in row }
{
    byte_of(row.e) as usize
}

fn settings_of(limits: Row, corners: Row, scale: Row, window: Row) -> Settings
    ensures { result ≡ S.settings_of limits corners scale window }
{
    Settings {
        hard: box_of(limits),
        p1: from_of(corners),
        p2: to_of(corners),
        scale: Scale {
            on: flag_in(scale),
            x: range_x(scale),
            y: range_y(scale),
        },
        turn: turn_in(limits),
        window: Window {
            set: flag_in(window),
            area: box_of(window),
        },
    }
}

pub fn put_settings(s: Settings, numbers: &mut [i64])
    requires { position_place ≤ length numbers.old }
    ensures { numbers.new ≡ over numbers.old limits_place (S.settings_numbers s) }
{
    put_row(numbers, LIMITS, limits_row(s.hard, s.turn));
    put_row(numbers, CORNERS, corners_row(s.p1, s.p2));
    put_row(numbers, SCALE, scale_row(s.scale));
    put_row(numbers, WINDOW, window_row(s.window));
}

pub fn settings_at(numbers: &[i64]) -> Settings
    requires { position_place ≤ length numbers.now }
    ensures { result ≡ S.settings_at numbers.now }
{
    settings_of(
        row_at(numbers, LIMITS),
        row_at(numbers, CORNERS),
        row_at(numbers, SCALE),
        row_at(numbers, WINDOW),
    )
}
