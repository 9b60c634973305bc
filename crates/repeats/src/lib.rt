// Lines that are painted twice: the last 4096 lines are kept, and each next one is looked for among them.
#![tactic(auto)]

ghost use Rattle.std.specs.Prelude.{◌≡◌, ◌<◌, ◌≤◌, length};
ghost use Rattle.repeats.specs.Repeats as S;

use console::sum;
use decimals::size;
use rows::{Row, put_row, row_at};

// What is kept, in a lent list and no map: nothing is allocated, painted and told promise what the list holds (docs/CONTRACTS.md), and the edits
// first_over_a_mark and mark_of_one_end hold its places. First the last 4096 lines, in rows of five numbers (pen, x0, y0, x1, y1): the n-th in slot n modulo 4096, over the one that
// was 4096 lines ago. Then how many lines there were, and how many of them were painted before; the first of these; and for each mark the last line that has
// it, counted from 1.
const KEPT: usize = 4096;

const COUNT: usize = KEPT * 5;

const TWICE: usize = COUNT + 1;

const FIRST: usize = COUNT + 5;

const MARKED: usize = COUNT + 10;

const MARKS: usize = 32749;

pub const ROOM: usize = MARKED + MARKS;

// How many lines were painted a second time, and the first of these. It stands beside the count and is no Option: told-first says that the first of none is a
// row of zeros.
#[derive(Clone, Copy)]
pub struct Repeats {
    pub twice: u64,
    pub first: Row,
}

// Whether two strokes have the same ends.
fn same_way(l: Row, m: Row) -> bool
    ensures { result ≡ S.same_way l m }
{
    l.b == m.b && l.c == m.c && l.d == m.d && l.e == m.e
}

// Whether one begins where the other ends, and ends where it begins.
fn other_way(l: Row, m: Row) -> bool
    ensures { result ≡ S.other_way l m }
{
    l.b == m.d && l.c == m.e && l.d == m.b && l.e == m.c
}

#[tactic(auto, unfolding(crate::specs::Repeats::same))]
fn same(l: Row, m: Row) -> bool
    ensures { result ≡ S.same l m }
{
    same_way(l, m) || other_way(l, m)
}

// How many lines are kept of so many.
#[tactic(auto, unfolding(crate::specs::Repeats::kept_of))]
fn kept(count: u64) -> usize
    ensures { result ≡ S.kept_of count }
{
    count.min(4096) as usize
}

// Whether one of so many slots has the ends of a line.
fn among(lines: &[i64], count: usize, l: Row) -> bool
    requires { (count ≤ S.most) × (S.room ≤ length lines.now) }
    ensures { result ≡ S.among lines.now count l }
{
    for i in (0..count).rev() {
        if same(l, row_at(lines, i * 5)) {
            return true;
        }
    }
    false
}

// The size of a number of the list.
fn size_at(lines: &[i64], at: usize) -> u64
    requires { at < length lines.now }
    ensures { result ≡ S.size_at lines.now at }
{
    size(lines[at])
}

// A number by its last 16 bits.
fn low(z: i64) -> u64
    ensures { result ≡ S.low_of z }
{
    let n = size(z) % 65536;
    if z < 0 {
        return 65536 - n;
    }
    n
}

// The mark of a line, the same either way round: by the middle between its ends.
fn mark(l: Row) -> usize
    ensures { result ≡ S.mark_of l }
{
    let across = low(l.b) + low(l.d);
    let along = low(l.c) + low(l.e);
    ((across * 31 + along * 1237) % 32749) as usize
}

// Whether a line was painted before. It is looked for only if one of its mark is still kept: most lines are new, and to look through all takes long.
#[tactic(auto, unfolding(crate::specs::Repeats::sought_in, crate::specs::Repeats::sought_of))]
fn sought(lines: &[i64], l: Row) -> bool
    requires { S.room ≤ length lines.now }
    ensures { result ≡ S.sought_in lines.now l }
{
    let count = size_at(lines, COUNT);
    let last = size_at(lines, MARKED + mark(l));
    last != 0 && count < sum(last, 4096) && among(lines, kept(count), l)
}

// A count as a number of the list.
#[tactic(auto, unfolding(crate::specs::Repeats::number_of))]
fn number(n: u64) -> i64
    ensures { result ≡ S.number_of n }
{
    i64::try_from(n).unwrap_or(i64::MAX)
}

// A line is kept, and is the last one of its mark.
fn keep(lines: &mut [i64], l: Row)
    requires { S.room ≤ length lines.old }
    ensures { lines.new ≡ S.kept_with lines.old l }
{
    let count = size_at(lines, COUNT);
    let next = number(sum(count, 1));
    let place = MARKED + mark(l);
    put_row(lines, (count % 4096) as usize * 5, l);
    lines[COUNT] = next;
    lines[place] = next;
}

// One more that was painted before; the first is told.
fn again(lines: &mut [i64], l: Row)
    requires { S.room ≤ length lines.old }
    ensures { lines.new ≡ S.again_of lines.old l }
{
    let twice = size_at(lines, TWICE);
    lines[TWICE] = number(sum(twice, 1));
    if twice == 0 {
        put_row(lines, FIRST, l);
    }
}

// One stroke more; a dot is no line. A list without room keeps nothing.
#[tactic(auto, unfolding(crate::specs::Repeats::painted_of))]
pub fn painted(lines: &mut [i64], l: Row)
    ensures { lines.new ≡ S.painted_of lines.old l }
{
    if lines.len() < ROOM || other_way(l, l) {
        return;
    }
    let found = sought(lines, l);
    keep(lines, l);
    if found {
        again(lines, l);
    }
}

// What the list tells.
#[tactic(auto, unfolding(crate::specs::Repeats::told_of))]
pub fn told(lines: &[i64]) -> Repeats
    ensures { result ≡ S.told_of lines.now }
{
    if lines.len() < ROOM {
        return Repeats {
            twice: 0,
            first: Row {
                a: 0,
                b: 0,
                c: 0,
                d: 0,
                e: 0,
            },
        };
    }
    Repeats {
        twice: size_at(lines, TWICE),
        first: row_at(lines, FIRST),
    }
}
