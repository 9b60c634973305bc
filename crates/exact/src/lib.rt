// Exact whole numbers in i64: division that rounds down, and to the nearest (`/` truncates toward zero); and the range of 16 bits.
// specs/Divide.antt and Int16.antt say what, specs/Nearest.antt what holds of it; the other files of specs/ are the project's toolkit for signed numbers.
#![tactic(auto)]

ghost use Rattle.std.specs.Prelude.{◌≡◌, pos};
ghost use Rattle.exact.specs.Whole.{◌<ᶻ◌};
ghost use Rattle.exact.specs.Fit.{Bd};
ghost use Rattle.exact.specs.Int16 as I;
ghost use Rattle.exact.specs.Divide.{floor_div, nearest_div};
ghost use Rattle.exact.specs.Steps.{mirrored_of};

// a, or -1 - a: a number below 0 and its mirror image above it have mirrored floors. It makes no branch, as std's div_euclid does: signs come in no order that a processor could foresee.
fn mirrored(below: bool, a: i64) -> i64
    ensures { result ≡ mirrored_of below a }
{
    if below { -1 - a } else { a }
}

// The largest whole number that is at most a / b, for b above 0.
pub fn floor_div(a: i64, b: i64) -> i64
    requires { pos 0 <ᶻ b }
    ensures { result ≡ floor_div a b }
{
    let below = a < 0;
    mirrored(below, mirrored(below, a) / b)
}

// The nearest whole number to n / d, for d above 0: by the remainder, so that nothing is doubled.
fn nearest_above(n: i64, d: i64) -> i64
    requires { Bd n 0x4000_0000_0000_0000 × (Bd d 0x2000_0000_0000_0000 × (pos 0 <ᶻ d)) }
    ensures { result ≡ nearest_div n d }
{
    let q = floor_div(n, d);
    let m = n - q * d;
    if d - m <= m { q + 1 } else { q }
}

// The nearest whole number to n / d, and of two the larger. d has either sign.
pub fn nearest_div(n: i64, d: i64) -> i64
    requires { Bd n 0x4000_0000_0000_0000 × (Bd d 0x2000_0000_0000_0000 × (d ≡ pos 0 → ⊥)) }
    ensures { result ≡ nearest_div n d }
{
    if d < 0 {
        return nearest_above(-n, -d);
    }
    nearest_above(n, d)
}

// The numbers of 16 bits.
const LEAST: i64 = -32768;

const MOST: i64 = 32767;

// Whether a number is one of them.
#[tactic(auto, using(crate::proofs::Rules::rules64), unfolding(crate::specs::Int16::int16))]
pub fn int16(z: i64) -> bool
    ensures { result ≡ I.int16 z }
{
    LEAST <= z && z <= MOST
}
