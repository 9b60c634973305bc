// Lengths: of a stroke in tenths of a unit, rounded to the nearest, and in centimetres on the ice.
#![tactic(auto)]

ghost use Rattle.std.specs.Prelude.{◌≡◌, ◌*◌, ◌<◌};
ghost use Rattle.measure.specs.Root.{Root, most, across, squares, tenths_of, centimetres_of, ice_of, narrow_of};

use console::apart;

// The whole part of a root.
pub fn root(n: u64) -> u64
    requires { n < most * most }
    ensures { Root n result × (result < most) }
{
    n.isqrt()
}

// From one coordinate to another, at most 65,535 as no sheet is wider.
pub fn side(a: i64, b: i64) -> u64
    ensures { result ≡ across a b }
{
    apart(a, b).min(65535)
}

// The length of a stroke, in tenths of a unit.
pub fn length(x0: i64, y0: i64, x1: i64, y1: i64) -> u64
    ensures { result ≡ tenths_of (squares x0 y0 x1 y1) }
{
    let dx = side(x1, x0);
    let dy = side(y1, y0);
    let twice = root(400 * (dx * dx + dy * dy));
    (twice + 1) / 2
}

// A drawing is made at 1 to this, where no other scale is asked for.
pub const SCALE: u8 = 40;

// So many tenths of a unit in centimetres on the ice, of a drawing at 1 to so much: whole lots of 4000 first, so that no product is too large.
pub fn centimetres(tenths: u64, scale: u8) -> u64
    ensures { result ≡ centimetres_of tenths scale }
{
    let lots = tenths / 4000;
    let rest = tenths % 4000;
    lots * scale as u64 + (rest * scale as u64 + 2000) / 4000
}

// From one coordinate to another in centimetres on the ice.
pub fn ice(a: i64, b: i64, scale: u8) -> u64
    ensures { result ≡ ice_of a b scale }
{
    let units = side(a, b);
    centimetres(units * 10, scale)
}

// Whether from one coordinate to another it is less than nine tenths of the way between two others.
pub fn narrow(a: i64, b: i64, c: i64, d: i64) -> bool
    ensures { result ≡ narrow_of a b c d }
{
    let part = side(a, b);
    let whole = side(c, d);
    part * 10 < whole * 9
}
