// The seal of a machine's list of numbers: a row before them with the version of the form and a sum, each number times its place.
// So a list that was kept in memory or on disk, and changed there, is told from one that the calls wrote. specs/Seal.antt says what is computed, proofs/SealLaws.antt what it tells.
#![tactic(auto)]

ghost use Rattle.std.specs.Prelude.{◌≡◌, pos, drop};
ghost use Rattle.seal.specs.Seal as S;
ghost use Rattle.seal.specs.Light as L;
ghost use Rattle.seal.specs.Columns as C;

use rows::{Row, put_row, row_at};

// The version of the form.
pub const VERSION: i64 = 5;

// The numbers in a row, and the rows after the header.
const ROW: usize = 5;

const ROWS: usize = 129;

// What a row weighs at the start of the numbers: each of its numbers times its place.
fn weigh(row: Row) -> i64
    requires { L.LightRow C.most_part row }
    ensures { result ≡ L.weigh_of (pos 0) row }
{
    row.a + 2 * row.b + 3 * row.c + 4 * row.d + 5 * row.e
}

// Two rows together, number by number.
fn plus(p: Row, q: Row) -> Row
    requires { L.LightRow C.most_column p × L.LightRow C.most_column q }
    ensures { result ≡ C.plus_of p q }
{
    Row {
        a: p.a + q.a,
        b: p.b + q.b,
        c: p.c + q.c,
        d: p.d + q.d,
        e: p.e + q.e,
    }
}

// The numbers of a row together.
fn total(r: Row) -> i64
    requires { L.LightRow C.most_column r }
    ensures { result ≡ C.total_of r }
{
    r.a + r.b + r.c + r.d + r.e
}

// From the last row to the first, without a product for each number: `part` has the rows so far together, and `all` the parts before each of them, so that a row counts in it
// once for each row before it.
fn checksum(numbers: &[i64]) -> i64
    requires { L.Light numbers.now }
    ensures { result ≡ S.checksum_of numbers.now }
{
    let mut part = Row::default();
    let mut all = Row::default();
    for k in (0..ROWS).rev() {
        all = plus(all, part);
        part = plus(part, row_at(numbers, k * ROW));
    }
    5 * total(all) + weigh(part)
}

// Whether a row may be a header, its sum apart.
#[tactic(auto, using(exact::proofs::Rules::rules64), unfolding(crate::specs::Seal::header_sound))]
pub fn header_sound(r: Row) -> bool
    ensures { result ≡ S.header_sound r }
{
    matches!(
        r,
        Row {
            a: VERSION,
            c: 0,
            d: 0,
            e: 0,
            ..
        }
    )
}

// Whether the sum in the header is that of the numbers after it.
pub fn sum_stands(numbers: &[i64]) -> bool
    requires { L.Light (drop 5 numbers.now) }
    ensures { result ≡ S.sum_stands numbers.now }
{
    let header = row_at(numbers, 0);
    let rest = &numbers[ROW..];
    header.b == checksum(rest)
}

// Writes the header of the numbers after it.
pub fn seal(numbers: &mut [i64])
    requires { L.Light (drop 5 numbers.old) }
    ensures { numbers.new ≡ S.sealed_of (drop 5 numbers.old) }
{
    let sum = checksum(&numbers[ROW..]);
    let header = Row {
        a: VERSION,
        b: sum,
        ..Row::default()
    };
    put_row(numbers, 0, header);
}
