// The work's four rows: a line, chords, the edges of the store, a reply, or nothing.
ghost use Rattle.std.specs.Prelude.{◌≡◌, ◌≤◌, ◌<◌};
ghost use Rattle.exact.specs.Fit.{Bd};
ghost use Rattle.plane.specs.Bounds.{most_angle, most_sweep, WayBounds, CentreBounds};
ghost use Rattle.hpgl.specs.Valid.{most_chords};
ghost use Rattle.wellformed.specs.Sound as S;

use super::tests::{between, blank, sum_below};
use hpgl::Circle;
use placing::arc::{each_fits, round_fits};
use rows::{Row, short_of};
use saving::work::circle_of;
use sines::table;

// Whether the vertices that n waiting chords of a circle join, from i on, are in range: at a glance, or one by one. Those that were drawn are not asked for, so that
// a call takes no longer than what waits needs.
fn round(o: Circle, i: u16, n: u16) -> bool
    requires { CentreBounds o.x × CentreBounds o.y × WayBounds o.radius × Bd o.sweep most_sweep × (0 < o.angle) × (o.angle ≤ most_angle) × (i ≤ most_chords) × (n ≤ most_chords) }
    ensures { result ≡ S.round_of o i n }
{
    let x = o.x;
    let y = o.y;
    let radius = o.radius;
    if round_fits(x, y, radius) {
        return true;
    }
    let sines = table();
    let angle = o.angle as usize;
    let from = i as usize;
    let many = n as usize;
    if from == 0 {
        return each_fits(x, y, radius, &sines, o.sweep, angle, 1, many);
    }
    each_fits(x, y, radius, &sines, o.sweep, angle, from, many + 1)
}

fn blanks(across: Row, along: Row, start: Row) -> bool
    ensures { result ≡ S.blanks_sound across along start }
{
    blank(across) && blank(along) && blank(start)
}

fn line_sound(r: Row, across: Row, along: Row, start: Row) -> bool
    ensures { result ≡ S.line_sound r across along start }
{
    let low = Row {
        a: -1_000_000,
        b: -1_000_000,
        c: -1_000_000,
        d: -1_000_000,
        e: 1,
    };
    let high = Row {
        a: 1_000_000,
        b: 1_000_000,
        c: 1_000_000,
        d: 1_000_000,
        e: 1,
    };
    between(low, r, high) && blanks(across, along, start)
}

fn chords_sound(r: Row, across: Row, along: Row, start: Row) -> bool
    ensures { result ≡ S.chords_sound r across along start }
{
    let low = Row {
        a: 0,
        b: 0,
        c: 5,
        d: 0,
        e: 2,
    };
    let high = Row {
        a: 720,
        b: 720,
        c: 1200,
        d: 0,
        e: 2,
    };
    if !between(low, r, high) {
        return false;
    }
    if !sum_below(r, high) {
        return false;
    }
    if !ring_sound(across, along, start) {
        return false;
    }
    round(
        circle_of(r, across, along, start),
        short_of(r.a),
        short_of(r.b),
    )
}

// A centre on one axis, with the way from it.
fn centre_sound(r: Row) -> bool
    ensures { result ≡ S.between_of S.centre_low r S.centre_high }
{
    between(
        Row {
            a: -2_000_000_001_000_001,
            b: -655_360_000,
            c: -65_536,
            d: 1,
            e: -327_680_000,
        },
        r,
        Row {
            a: 2_000_000_001_000_001,
            b: 655_360_000,
            c: 65_536,
            d: 655_360_000,
            e: 327_680_000,
        },
    )
}

// Where a circle starts, and how far it goes, which is not 0.
fn start_sound(r: Row) -> bool
    ensures { result ≡ S.start_sound r }
{
    let low = Row {
        a: -1_000_000,
        b: -1_000_000,
        c: -3600,
        d: 0,
        e: 0,
    };
    let high = Row {
        a: 1_000_000,
        b: 1_000_000,
        c: 3600,
        d: 0,
        e: 0,
    };
    between(low, r, high) && r.c != 0
}

// Both axes of a circle, and its start.
fn ring_sound(across: Row, along: Row, start: Row) -> bool
    ensures { result ≡ S.ring_sound across along start }
{
    centre_sound(across) && centre_sound(along) && start_sound(start)
}

fn outline_sound(r: Row, across: Row, along: Row, start: Row) -> bool
    ensures { result ≡ S.outline_sound r across along start }
{
    let low = Row {
        a: 0,
        b: 0,
        c: 0,
        d: 0,
        e: 3,
    };
    let high = Row {
        a: 112,
        b: 112,
        c: 0,
        d: 0,
        e: 3,
    };
    between(low, r, high) && sum_below(r, high) && blanks(across, along, start)
}

// How many numbers a reply has: one, three or four.
fn count_sound(r: Row) -> bool
    ensures { result ≡ S.count_sound r }
{
    let low = Row {
        a: 1,
        b: 0,
        c: 0,
        d: 0,
        e: 0,
    };
    let high = Row {
        a: 4,
        b: 0,
        c: 0,
        d: 0,
        e: 0,
    };
    between(low, r, high) && r.a != 2
}

fn reply_sound(r: Row, across: Row, along: Row, start: Row) -> bool
    ensures { result ≡ S.reply_sound r across along start }
{
    let low = Row {
        a: -1_000_000,
        b: -1_000_000,
        c: -1_000_000,
        d: -1_000_000,
        e: 4,
    };
    let high = Row {
        a: 1_000_000,
        b: 1_000_000,
        c: 1_000_000,
        d: 1_000_000,
        e: 4,
    };
    between(low, r, high) && count_sound(across) && blank(along) && blank(start)
}

pub fn work_sound(r: Row, across: Row, along: Row, start: Row) -> bool
    ensures { result ≡ S.work_sound r across along start }
{
    // one test after the other: the arms of a match on a signed number tell the proof nothing by name
    if r.e == 1 {
        return line_sound(r, across, along, start);
    }
    if r.e == 2 {
        return chords_sound(r, across, along, start);
    }
    if r.e == 3 {
        return outline_sound(r, across, along, start);
    }
    if r.e == 4 {
        return reply_sound(r, across, along, start);
    }
    blank(r) && blanks(across, along, start)
}

// Whether the pen is not 0, or no segment waits: a reply is none.
pub fn inked_sound(pen: Row, work: Row) -> bool
    ensures { result ≡ S.inked_sound pen work }
{
    if 1 <= pen.a {
        return true;
    }
    if work.e == 0 {
        return true;
    }
    if work.e == 4 {
        return true;
    }
    if work.e == 1 {
        return false;
    }
    work.b == 0
}
