// A row between two rows, number by number.
ghost use Rattle.std.specs.Prelude.{◌≡◌, ◌&&◌, ◌+ℤ◌};
ghost use Rattle.exact.specs.Whole.{◌≤?◌};
ghost use Rattle.exact.specs.Fit.{Bd};
ghost use Rattle.wellformed.specs.Sound as S;

use rows::Row;

// Whether a number is at least one and at most another. The two tests stand together, so that they are compiled to one: each call tests every number of a machine.
fn inside(low: i64, z: i64, high: i64) -> bool
    ensures { result ≡ ((low ≤? z) && (z ≤? high)) }
{
    low <= z && z <= high
}

fn first_between(low: Row, r: Row, high: Row) -> bool
    ensures { result ≡ (S.first_below low r && S.first_below r high) }
{
    inside(low.a, r.a, high.a) && inside(low.b, r.b, high.b)
}

fn end_between(low: Row, r: Row, high: Row) -> bool
    ensures { result ≡ (((low.d ≤? r.d) && (low.e ≤? r.e)) && ((r.d ≤? high.d) && (r.e ≤? high.e))) }
{
    inside(low.d, r.d, high.d) && inside(low.e, r.e, high.e)
}

fn last_between(low: Row, r: Row, high: Row) -> bool
    ensures { result ≡ (S.last_below low r && S.last_below r high) }
{
    inside(low.c, r.c, high.c) && end_between(low, r, high)
}

pub fn between(low: Row, r: Row, high: Row) -> bool
    ensures { result ≡ S.between_of low r high }
{
    first_between(low, r, high) && last_between(low, r, high)
}

// Whether a row is of zeros.
pub fn blank(r: Row) -> bool
    ensures { result ≡ S.blank_sound r }
{
    let none = Row {
        a: 0,
        b: 0,
        c: 0,
        d: 0,
        e: 0,
    };
    between(none, r, none)
}

// Whether the first two numbers together are at most the first of another row.
pub fn sum_below(r: Row, high: Row) -> bool
    requires { Bd r.a 1000000 × Bd r.b 1000000 }
    ensures { result ≡ (r.a +ℤ r.b ≤? high.a) }
{
    r.a + r.b <= high.a
}
