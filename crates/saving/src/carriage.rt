// The carriage as six rows: position and mode, pen, polygon, its first point, what PM0 saved, memory.
ghost use Rattle.std.specs.Prelude.{◌≡◌, ◌≤◌, length};
ghost use Rattle.rows.specs.Rows.{over};
ghost use Rattle.saved.specs.Places.{position_place, work_place};
ghost use Rattle.saved.specs.Saved as S;

use super::places::{FIRST, MEMORY, PEN, POLYGON, POSITION, SAVED};
use super::sheet::flag_in;
use hpgl::{Carriage, Memory, Pen, Polygon, Position, Saved};
use plane::position::ExactPosition;
use rows::{Row, byte_of, flag_number, flag_of, put_row, row_at, short_of, whole};

// A position, and a flag beside it.
fn position_row(p: Position, on: bool) -> Row
    ensures { result ≡ S.position_row p on }
{
    let x = p.x;
    let y = p.y;
    Row {
        a: x.base,
        b: x.offset,
        c: y.base,
        d: y.offset,
        e: flag_number(on),
    }
}

fn pen_row(p: Pen) -> Row
    ensures { result ≡ S.pen_row p }
{
    Row {
        a: whole(p.number as u32),
        b: flag_number(p.down),
        c: flag_number(p.changed),
        d: 0,
        e: 0,
    }
}

// What counts of a polygon, and whether PM0 saved a pen that was down.
fn polygon_row(g: Polygon) -> Row
    ensures { result ≡ S.polygon_row g }
{
    let saved = g.saved;
    Row {
        a: flag_number(g.mode),
        b: whole(g.bytes as u32),
        c: whole(g.edges as u32),
        d: flag_number(saved.down),
        e: 0,
    }
}

fn memory_row(n: Memory) -> Row
    ensures { result ≡ S.memory_row n }
{
    Row {
        a: whole(n.refusal as u32),
        b: 0,
        c: 0,
        d: 0,
        e: 0,
    }
}

fn position_of(row: Row) -> Position
    ensures { result ≡ S.position_of row }
{
    Position {
        x: ExactPosition {
            base: row.a,
            offset: row.b,
        },
        y: ExactPosition {
            base: row.c,
            offset: row.d,
        },
    }
}

fn pen_of(row: Row) -> Pen
    ensures { result ≡ S.pen_of row }
{
    Pen {
        number: byte_of(row.a),
        down: flag_of(row.b),
        changed: flag_of(row.c),
    }
}

fn saved_of(row: Row, position: Row) -> Saved
    ensures { result ≡ S.pm0_of row position }
{
    Saved {
        position: position_of(position),
        relative: flag_in(position),
        down: flag_of(row.d),
    }
}

fn polygon_of(row: Row, first: Row, saved: Row) -> Polygon
    ensures { result ≡ S.polygon_of row first saved }
{
    Polygon {
        mode: flag_of(row.a),
        bytes: short_of(row.b),
        edges: byte_of(row.c),
        empty: flag_in(first),
        first: position_of(first),
        saved: saved_of(row, saved),
    }
}

fn memory_of(row: Row) -> Memory
    ensures { result ≡ S.memory_of row }
{
    Memory {
        refusal: byte_of(row.a),
    }
}

fn carriage_of(place: Row, pen: Row, polygon: Row, first: Row, saved: Row, memory: Row) -> Carriage
    ensures { result ≡ S.carriage_of place pen polygon first saved memory }
{
    Carriage {
        position: position_of(place),
        pen: pen_of(pen),
        relative: flag_in(place),
        polygon: polygon_of(polygon, first, saved),
        memory: memory_of(memory),
    }
}

pub fn put_carriage(c: Carriage, numbers: &mut [i64])
    requires { work_place ≤ length numbers.old }
    ensures { numbers.new ≡ over numbers.old position_place (S.carriage_numbers c) }
{
    let polygon = c.polygon;
    let saved = polygon.saved;
    put_row(numbers, POSITION, position_row(c.position, c.relative));
    put_row(numbers, PEN, pen_row(c.pen));
    put_row(numbers, POLYGON, polygon_row(polygon));
    put_row(numbers, FIRST, position_row(polygon.first, polygon.empty));
    put_row(numbers, SAVED, position_row(saved.position, saved.relative));
    put_row(numbers, MEMORY, memory_row(c.memory));
}

pub fn carriage_at(numbers: &[i64]) -> Carriage
    requires { work_place ≤ length numbers.now }
    ensures { result ≡ S.carriage_at numbers.now }
{
    carriage_of(
        row_at(numbers, POSITION),
        row_at(numbers, PEN),
        row_at(numbers, POLYGON),
        row_at(numbers, FIRST),
        row_at(numbers, SAVED),
        row_at(numbers, MEMORY),
    )
}
