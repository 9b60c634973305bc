// Whole numbers as a person writes them. specs/Word.antt says which words are one.
ghost use Rattle.std.specs.Prelude.{◌≡◌, ◌*◌, ◌≤◌};
ghost use Rattle.textlines.specs.Word as S;

use clip::Rect;

// A number is read on while it is below this one, so that it stays within 64 bits.
const TOO_LARGE: u64 = 100000000000000000;

fn signed(minus: bool, n: u64) -> i64
    requires { n ≤ 10 * S.too_large }
    ensures { result ≡ S.signed minus n }
{
    let z = n as i64;
    if minus { -z } else { z }
}

// The number that digits are.
fn digits_of(minus: bool, digits: &[u8]) -> Option<i64>
    ensures { result ≡ S.digits_of minus digits.now }
{
    if digits.is_empty() {
        return None;
    }
    let mut n = 0;
    for byte in digits {
        if !byte.is_ascii_digit() || n >= TOO_LARGE {
            return None;
        }
        n = n * 10 + u64::from(byte - b'0');
    }
    Some(signed(minus, n))
}

// The number that a word is, if it is one.
#[tactic(auto, unfolding(crate::specs::Word::whole_of, crate::specs::Word::digits_of))]
pub fn whole_of(word: &[u8]) -> Option<i64>
    ensures { result ≡ S.whole_of word.now }
{
    match word {
        [b'-', digits @ ..] => digits_of(true, digits),
        _ => digits_of(false, word),
    }
}

// Hard limits: four words that are numbers.
#[tactic(auto, using(exact::proofs::Rules::rules64), unfolding(crate::specs::Word::limits_of))]
pub fn limits_of(
    left: Option<i64>,
    bottom: Option<i64>,
    right: Option<i64>,
    top: Option<i64>,
) -> Option<Rect>
    ensures { result ≡ S.limits_of left bottom right top }
{
    Some(Rect {
        left: left?,
        bottom: bottom?,
        right: right?,
        top: top?,
    })
}
