// The waiting work as four rows: what it is, with its numbers, a circle's centre and radius on each axis, and its start and sweep. Of a reply
// the second row says how many numbers it has.
ghost use Rattle.std.specs.Prelude.{◌≡◌, ◌≤◌, length};
ghost use Rattle.rows.specs.Rows.{over};
ghost use Rattle.saved.specs.Places.{work_place, edges_place};
ghost use Rattle.saved.specs.Saved as S;

use super::places::{ACROSS, ALONG, START, WORK};
use super::sheet::{from_of, to_of};
use clip::Point;
use hpgl::{Circle, Reply, Work};
use plane::circle::{Centre, Way};
use rows::{Row, byte_of, put_row, row_at, short_of, whole};

fn blank_row() -> Row
    ensures { result ≡ S.blank_row }
{
    Row {
        a: 0,
        b: 0,
        c: 0,
        d: 0,
        e: 0,
    }
}

fn line_row(p: Point, q: Point) -> Row
    ensures { result ≡ S.line_row p q }
{
    Row {
        a: p.x,
        b: p.y,
        c: q.x,
        d: q.y,
        e: 1,
    }
}

fn chords_row(o: Circle, i: u16, n: u16) -> Row
    ensures { result ≡ S.chords_row o i n }
{
    Row {
        a: whole(i as u32),
        b: whole(n as u32),
        c: whole(o.angle as u32),
        d: 0,
        e: 2,
    }
}

fn edges_row(i: u8, n: u8) -> Row
    ensures { result ≡ S.edges_row i n }
{
    Row {
        a: whole(i as u32),
        b: whole(n as u32),
        c: 0,
        d: 0,
        e: 3,
    }
}

fn reply_row(r: Reply) -> Row
    ensures { result ≡ S.reply_row r }
{
    Row {
        a: r.first,
        b: r.second,
        c: r.third,
        d: r.fourth,
        e: 4,
    }
}

fn count_row(r: Reply) -> Row
    ensures { result ≡ S.count_row r }
{
    Row {
        a: whole(r.count as u32),
        b: 0,
        c: 0,
        d: 0,
        e: 0,
    }
}

// A circle's two axes, each with its part of the radius: two functions, as the definition has two.
fn across_row(o: Circle) -> Row
    ensures { result ≡ S.across_row o }
{
    let x = o.x;
    let radius = o.radius;
    Row {
        a: x.base,
        b: x.part,
        c: x.span,
        d: x.width,
        e: radius.u,
    }
}

fn along_row(o: Circle) -> Row
    ensures { result ≡ S.along_row o }
{
    let y = o.y;
    let radius = o.radius;
    Row {
        a: y.base,
        b: y.part,
        c: y.span,
        d: y.width,
        e: radius.v,
    }
}

fn start_row(o: Circle) -> Row
    ensures { result ≡ S.start_row o }
{
    let start = o.start;
    Row {
        a: start.x,
        b: start.y,
        c: o.sweep,
        d: 0,
        e: 0,
    }
}

// What waits, with its numbers; the circle of chords that wait, on each axis, or the count of a reply; and the circle's start.
fn work_rows(w: Work) -> (Row, Row, Row, Row)
    ensures { result ≡ (S.work_row w, S.work_across w, S.work_along w, S.work_start w) }
{
    let blank = blank_row();
    match w {
        Work::Nothing => (blank, blank, blank, blank),
        Work::Line(p, q) => (line_row(p, q), blank, blank, blank),
        Work::Chords(o, i, n) => (
            chords_row(o, i, n),
            across_row(o),
            along_row(o),
            start_row(o),
        ),
        Work::Edges(i, n) => (edges_row(i, n), blank, blank, blank),
        Work::Answer(r) => (reply_row(r), count_row(r), blank, blank),
    }
}

fn centre_of(row: Row) -> Centre
    ensures { result ≡ S.centre_of row }
{
    Centre {
        base: row.a,
        part: row.b,
        span: row.c,
        width: row.d,
    }
}

fn way_of(across: Row, along: Row) -> Way
    ensures { result ≡ S.way_of across along }
{
    Way {
        u: across.e,
        v: along.e,
    }
}

fn angle_in(row: Row) -> u16
    ensures { result ≡ S.angle_in row }
{
    short_of(row.c)
}

pub fn circle_of(chords: Row, across: Row, along: Row, start: Row) -> Circle
    ensures { result ≡ S.circle_of chords across along start }
{
    Circle {
        x: centre_of(across),
        y: centre_of(along),
        radius: way_of(across, along),
        angle: angle_in(chords),
        start: from_of(start),
        sweep: start.c,
    }
}

pub fn reply_of(row: Row, across: Row) -> Reply
    ensures { result ≡ S.reply_of row across }
{
    Reply {
        count: byte_of(across.a),
        first: row.a,
        second: row.b,
        third: row.c,
        fourth: row.d,
    }
}

fn work_of(row: Row, across: Row, along: Row, start: Row) -> Work
    ensures { result ≡ S.work_of row across along start }
{
    match byte_of(row.e) {
        1 => Work::Line(from_of(row), to_of(row)),
        2 => Work::Chords(
            circle_of(row, across, along, start),
            short_of(row.a),
            short_of(row.b),
        ),
        3 => Work::Edges(byte_of(row.a), byte_of(row.b)),
        4 => Work::Answer(reply_of(row, across)),
        _ => Work::Nothing,
    }
}

pub fn put_work(w: Work, numbers: &mut [i64])
    requires { edges_place ≤ length numbers.old }
    ensures { numbers.new ≡ over numbers.old work_place (S.work_numbers w) }
{
    let (row, across, along, start) = work_rows(w);
    put_row(numbers, WORK, row);
    put_row(numbers, ACROSS, across);
    put_row(numbers, ALONG, along);
    put_row(numbers, START, start);
}

pub fn work_at(numbers: &[i64]) -> Work
    requires { edges_place ≤ length numbers.now }
    ensures { result ≡ S.work_at numbers.now }
{
    work_of(
        row_at(numbers, WORK),
        row_at(numbers, ACROSS),
        row_at(numbers, ALONG),
        row_at(numbers, START),
    )
}
