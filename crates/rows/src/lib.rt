// Whole numbers in rows of five, in a lent list, and what stands in one: a flag, or a number of some width. So a machine is written out and read back.
#![tactic(auto)]

ghost use Rattle.std.specs.Prelude.{◌≡◌, ◌+◌, ◌≤◌, pos, length};
ghost use Rattle.rows.specs.Rows.{row_at, with_row, flag_number, flag_of, place_number, small_of, most_byte, most_short, most_word};

// Five numbers. What is not used is 0.
#[derive(Clone, Copy, Default)]
pub struct Row {
    pub a: i64,
    pub b: i64,
    pub c: i64,
    pub d: i64,
    pub e: i64,
}

// The row from a place of a list on.
#[tactic(auto, unfolding(crate::specs::Rows::row_at))]
pub fn row_at(numbers: &[i64], at: usize) -> Row
    requires { at + 5 ≤ length numbers.now }
    ensures { result ≡ row_at numbers.now at }
{
    Row {
        a: numbers[at],
        b: numbers[at + 1],
        c: numbers[at + 2],
        d: numbers[at + 3],
        e: numbers[at + 4],
    }
}

// Stores a row from a place of a list on.
#[tactic(auto, unfolding(crate::specs::Rows::with_row))]
pub fn put_row(numbers: &mut [i64], at: usize, row: Row)
    requires { at + 5 ≤ length numbers.old }
    ensures { numbers.new ≡ with_row row at numbers.old }
{
    numbers[at] = row.a;
    numbers[at + 1] = row.b;
    numbers[at + 2] = row.c;
    numbers[at + 3] = row.d;
    numbers[at + 4] = row.e;
}

// 1 for a flag that is set.
#[tactic(auto, unfolding(crate::specs::Rows::flag_number))]
pub fn flag_number(on: bool) -> i64
    ensures { result ≡ flag_number on }
{
    i64::from(on)
}

#[tactic(auto, using(exact::proofs::Rules::rules64), unfolding(crate::specs::Rows::flag_of))]
pub fn flag_of(z: i64) -> bool
    ensures { result ≡ flag_of z }
{
    0 < z
}

// An unsigned number.
pub fn whole(x: u32) -> i64
    ensures { result ≡ pos x }
{
    i64::from(x)
}

// A place in a table of at most 256 rows.
#[tactic(auto, unfolding(crate::specs::Rows::place_number))]
pub fn place_number(x: usize) -> i64
    ensures { result ≡ place_number x }
{
    u8::try_from(x).map_or(0, i64::from)
}

// A number of 8, 16 or 32 bits; 0 for one that has more. Three names and no generic one: each is a call of std's, and says at its callers which width is read.
pub fn byte_of(z: i64) -> u8
    ensures { result ≡ small_of most_byte z }
{
    u8::try_from(z).unwrap_or(0)
}

pub fn short_of(z: i64) -> u16
    ensures { result ≡ small_of most_short z }
{
    u16::try_from(z).unwrap_or(0)
}

pub fn word_of(z: i64) -> u32
    ensures { result ≡ small_of most_word z }
{
    u32::try_from(z).unwrap_or(0)
}
