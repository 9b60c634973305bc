// The carriage's six rows.
ghost use Rattle.std.specs.Prelude.{◌≡◌, pos, ◌+ℤ◌, ◌*ℤ◌};
ghost use Rattle.exact.specs.Whole.{◌≤?◌};
ghost use Rattle.exact.specs.Fit.{Bd};
ghost use Rattle.hpgl.specs.Valid.{ValidSettings};
ghost use Rattle.saved.specs.Saved.{position_of};
ghost use Rattle.wellformed.specs.Sound as S;

use super::places::placed;
use super::tests::between;
use hpgl::{Position, Settings};
use plane::position::ExactPosition;
use rows::Row;

// Base and offset on both axes, and a flag.
fn position_sound(r: Row) -> bool
    ensures { result ≡ S.position_sound r }
{
    between(
        Row {
            a: -1_000_000,
            b: -2_000_000_000_000_000,
            c: -1_000_000,
            d: -2_000_000_000_000_000,
            e: 0,
        },
        r,
        Row {
            a: 1_000_000,
            b: 2_000_000_000_000_000,
            c: 1_000_000,
            d: 2_000_000_000_000_000,
            e: 1,
        },
    )
}

fn pen_sound(r: Row) -> bool
    ensures { result ≡ S.pen_sound r }
{
    between(
        Row {
            a: 0,
            b: 0,
            c: 0,
            d: 0,
            e: 0,
        },
        r,
        Row {
            a: 8,
            b: 1,
            c: 1,
            d: 0,
            e: 0,
        },
    )
}

// Whether the bytes of PM0 and of all edges are counted.
fn counted(r: Row) -> bool
    requires { Bd r.c 1000000 }
    ensures { result ≡ (pos 11 +ℤ pos 9 *ℤ r.c ≤? r.b) }
{
    11 + 9 * r.c <= r.b
}

fn polygon_sound(r: Row) -> bool
    ensures { result ≡ S.polygon_sound r }
{
    let low = Row {
        a: 0,
        b: 0,
        c: 0,
        d: 0,
        e: 0,
    };
    let high = Row {
        a: 1,
        b: 1024,
        c: 112,
        d: 1,
        e: 0,
    };
    between(low, r, high) && (r.a == 0 || counted(r))
}

// What OE may tell: 0, 1, 2, 3, 6 or 7.
fn memory_sound(r: Row) -> bool
    ensures { result ≡ S.memory_sound r }
{
    let low = Row {
        a: 0,
        b: 0,
        c: 0,
        d: 0,
        e: 0,
    };
    let high = Row {
        a: 7,
        b: 0,
        c: 0,
        d: 0,
        e: 0,
    };
    between(low, r, high) && (r.a <= 3 || 6 <= r.a)
}

// Whether the position of a row may be kept. The crate saving builds it too, in a module of its own that it hands to nobody.
fn placed_row(s: Settings, r: Row) -> bool
    requires { ValidSettings s }
    ensures { result ≡ S.placed_of s (position_of r) }
{
    placed(
        s,
        Position {
            x: ExactPosition {
                base: r.a,
                offset: r.b,
            },
            y: ExactPosition {
                base: r.c,
                offset: r.d,
            },
        },
    )
}

fn kept_sound(s: Settings, polygon: Row, first: Row, saved: Row) -> bool
    requires { ValidSettings s }
    ensures { result ≡ S.kept_sound s polygon first saved }
{
    polygon.a == 0 || placed_row(s, first) && placed_row(s, saved)
}

fn positions_sound(place: Row, first: Row, saved: Row) -> bool
    ensures { result ≡ S.positions_sound place first saved }
{
    position_sound(place) && position_sound(first) && position_sound(saved)
}

fn parts_sound(place: Row, pen: Row, polygon: Row, first: Row, saved: Row, memory: Row) -> bool
    ensures { result ≡ S.parts_sound place pen polygon first saved memory }
{
    positions_sound(place, first, saved)
        && pen_sound(pen)
        && polygon_sound(polygon)
        && memory_sound(memory)
}

pub fn carriage_sound(
    s: Settings,
    place: Row,
    pen: Row,
    polygon: Row,
    first: Row,
    saved: Row,
    memory: Row,
) -> bool
    requires { ValidSettings s }
    ensures { result ≡ S.carriage_sound s place pen polygon first saved memory }
{
    parts_sound(place, pen, polygon, first, saved, memory)
        && placed_row(s, place)
        && kept_sound(s, polygon, first, saved)
}
