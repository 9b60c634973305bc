// The reader's three rows, and that what it reads is known in polygon mode.
ghost use Rattle.std.specs.Prelude.{◌≡◌};
ghost use Rattle.wellformed.specs.Sound as S;

use super::tests::between;
use mnemonics::{ROWS, known_in_polygon};
use rows::{Row, byte_of};

// The last instruction of the table.
const LAST: i64 = ROWS as i64 - 1;

fn place_sound(r: Row) -> bool
    ensures { result ≡ S.place_sound r }
{
    if r.a == 1 {
        return between(
            Row {
                a: 1,
                b: 0,
                c: 0,
                d: 0,
                e: 0,
            },
            r,
            Row {
                a: 1,
                b: 255,
                c: LAST,
                d: 0,
                e: 0,
            },
        );
    }
    between(
        Row {
            a: 0,
            b: 0,
            c: 0,
            d: 0,
            e: 0,
        },
        r,
        Row {
            a: 5,
            b: 0,
            c: LAST,
            d: 0,
            e: 0,
        },
    )
}

fn numbers_sound(r: Row) -> bool
    ensures { result ≡ S.numbers_sound r }
{
    between(
        Row {
            a: 0,
            b: -327_680_000,
            c: -327_680_000,
            d: -327_680_000,
            e: -327_680_000,
        },
        r,
        Row {
            a: 4,
            b: 327_680_000,
            c: 327_680_000,
            d: 327_680_000,
            e: 327_680_000,
        },
    )
}

fn number_sound(r: Row) -> bool
    ensures { result ≡ S.number_sound r }
{
    between(
        Row {
            a: 0,
            b: 0,
            c: 0,
            d: 0,
            e: 0,
        },
        r,
        Row {
            a: 1,
            b: 1,
            c: 1,
            d: 7,
            e: 3_276_800_009,
        },
    )
}

pub fn reader_sound(place: Row, numbers: Row, number: Row) -> bool
    ensures { result ≡ S.reader_sound place numbers number }
{
    place_sound(place) && numbers_sound(numbers) && number_sound(number)
}

pub fn known_sound(place: Row, polygon: Row) -> bool
    ensures { result ≡ S.known_sound place polygon }
{
    polygon.a == 0 || place.a < 2 || 3 < place.a || known_in_polygon(byte_of(place.c) as usize)
}
