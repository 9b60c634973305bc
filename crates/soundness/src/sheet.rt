// The settings' four rows.
ghost use Rattle.std.specs.Prelude.{◌≡◌};
ghost use Rattle.wellformed.specs.Sound as S;

use super::tests::between;
use rows::Row;
use turns::turn::TURN_COUNT;

// The last turn of the table.
const LAST_TURN: i64 = TURN_COUNT as i64 - 1;

fn limits_sound(r: Row) -> bool
    ensures { result ≡ S.limits_sound r }
{
    let low = Row {
        a: -32_768,
        b: -32_768,
        c: -32_768,
        d: -32_768,
        e: 0,
    };
    let high = Row {
        a: 32_768,
        b: 32_768,
        c: 32_768,
        d: 32_768,
        e: LAST_TURN,
    };
    between(low, r, high) && r.a < r.c && r.b < r.d
}

fn corners_sound(r: Row) -> bool
    ensures { result ≡ S.corners_sound r }
{
    let low = Row {
        a: -32_768,
        b: -32_768,
        c: -32_768,
        d: -32_768,
        e: 0,
    };
    let high = Row {
        a: 32_768,
        b: 32_768,
        c: 32_768,
        d: 32_768,
        e: 0,
    };
    between(low, r, high) && r.a != r.c && r.b != r.d
}

fn scale_sound(r: Row) -> bool
    ensures { result ≡ S.scale_sound r }
{
    let low = Row {
        a: -327_680_000,
        b: -327_680_000,
        c: -327_680_000,
        d: -327_680_000,
        e: 0,
    };
    let high = Row {
        a: 327_680_000,
        b: 327_680_000,
        c: 327_680_000,
        d: 327_680_000,
        e: 1,
    };
    between(low, r, high) && (r.e == 0 || r.a != r.b && r.c != r.d)
}

// A window, or an edge.
pub fn box_sound(r: Row) -> bool
    ensures { result ≡ S.box_sound r }
{
    let low = Row {
        a: -1_000_000,
        b: -1_000_000,
        c: -1_000_000,
        d: -1_000_000,
        e: 0,
    };
    let high = Row {
        a: 1_000_000,
        b: 1_000_000,
        c: 1_000_000,
        d: 1_000_000,
        e: 1,
    };
    between(low, r, high)
}

pub fn settings_sound(limits: Row, corners: Row, scale: Row, window: Row) -> bool
    ensures { result ≡ S.settings_sound limits corners scale window }
{
    limits_sound(limits) && corners_sound(corners) && scale_sound(scale) && box_sound(window)
}
