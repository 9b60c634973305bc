// The reader as three rows of numbers: where it is, the numbers of its instruction, and the number that is open.
ghost use Rattle.std.specs.Prelude.{◌≡◌, ◌≤◌, length};
ghost use Rattle.rows.specs.Rows.{over};
ghost use Rattle.saved.specs.SavedReader.{mode_tag, mode_letter, mode_of, place_row, numbers_row, numbers_of, number_row, number_of, reader_numbers, reader_of, reader_at};
ghost use Rattle.saved.specs.Places.{limits_place};

use numerals::number::Number;
use reader::{Mode, Numbers, Reader};
use rows::{Row, byte_of, flag_number, flag_of, place_number, put_row, row_at, whole, word_of};

// The modes by number, as they stand in the list that C keeps.
const IDLE: u8 = 0;

const FIRST: u8 = 1;

const PARAMETERS: u8 = 2;

const IN_NUMBER: u8 = 3;

const PASS_OVER: u8 = 4;

const LABEL: u8 = 5;

fn mode_tag(mode: Mode) -> u8
    ensures { result ≡ mode_tag mode }
{
    match mode {
        Mode::Idle => IDLE,
        Mode::First(_) => FIRST,
        Mode::Parameters => PARAMETERS,
        Mode::InNumber => IN_NUMBER,
        Mode::PassOver => PASS_OVER,
        Mode::Label => LABEL,
    }
}

// The first letter, where there is one.
fn mode_letter(mode: Mode) -> u8
    ensures { result ≡ mode_letter mode }
{
    if let Mode::First(letter) = mode {
        letter
    } else {
        0
    }
}

fn mode_of(tag: u8, letter: u8) -> Mode
    ensures { result ≡ mode_of tag letter }
{
    match tag {
        FIRST => Mode::First(letter),
        PARAMETERS => Mode::Parameters,
        IN_NUMBER => Mode::InNumber,
        PASS_OVER => Mode::PassOver,
        LABEL => Mode::Label,
        _ => Mode::Idle,
    }
}

fn place_row(mode: Mode, op: usize) -> Row
    ensures { result ≡ place_row mode op }
{
    Row {
        a: whole(mode_tag(mode) as u32),
        b: whole(mode_letter(mode) as u32),
        c: place_number(op),
        d: 0,
        e: 0,
    }
}

fn numbers_row(n: Numbers) -> Row
    ensures { result ≡ numbers_row n }
{
    Row {
        a: whole(n.count as u32),
        b: n.first,
        c: n.second,
        d: n.third,
        e: n.fourth,
    }
}

fn numbers_of(row: Row) -> Numbers
    ensures { result ≡ numbers_of row }
{
    Numbers {
        count: byte_of(row.a),
        first: row.b,
        second: row.c,
        third: row.d,
        fourth: row.e,
    }
}

fn number_row(n: Number) -> Row
    ensures { result ≡ number_row n }
{
    Row {
        a: flag_number(n.negative),
        b: flag_number(n.filled),
        c: flag_number(n.pointed),
        d: whole(n.decimals as u32),
        e: whole(n.magnitude),
    }
}

fn number_of(row: Row) -> Number
    ensures { result ≡ number_of row }
{
    Number {
        negative: flag_of(row.a),
        filled: flag_of(row.b),
        pointed: flag_of(row.c),
        decimals: byte_of(row.d),
        magnitude: word_of(row.e),
    }
}

// Stores a reader at the start of a list.
pub fn put_reader(r: Reader, list: &mut [i64])
    requires { limits_place ≤ length list.old }
    ensures { list.new ≡ over list.old 0 (reader_numbers r) }
{
    put_row(list, 0, place_row(r.mode, r.op));
    put_row(list, 5, numbers_row(r.numbers));
    put_row(list, 10, number_row(r.number));
}

// The reader of three rows.
fn reader_of(place: Row, numbers: Row, number: Row) -> Reader
    ensures { result ≡ reader_of place numbers number }
{
    Reader {
        mode: mode_of(byte_of(place.a), byte_of(place.b)),
        op: byte_of(place.c) as usize,
        numbers: numbers_of(numbers),
        number: number_of(number),
    }
}

// The reader at the start of a list.
pub fn reader_at(list: &[i64]) -> Reader
    requires { limits_place ≤ length list.now }
    ensures { result ≡ reader_at list.now }
{
    reader_of(row_at(list, 0), row_at(list, 5), row_at(list, 10))
}
