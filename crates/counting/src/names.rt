// The name of what is refused, from the bytes before it.
ghost use Rattle.std.specs.Prelude.{◌≡◌, length, take, drop, not};
ghost use Rattle.std.specs.List.{take_while};
ghost use Rattle.std.specs.Option.{is_some};
ghost use Rattle.counting.specs.Names as S;

use console::rest;

// Two letters: the last two before a place, or a name.
#[derive(Clone, Copy, PartialEq, Eq)]
pub struct Letters {
    pub first: u8,
    pub second: u8,
}

pub fn no_letters() -> Letters
    ensures { result ≡ S.unnamed }
{
    Letters {
        first: b'?',
        second: b'?',
    }
}

// The name of a byte of an escape sequence: ESC, as it is written.
pub fn escape_letters() -> Letters
    ensures { result ≡ S.escaped }
{
    Letters {
        first: b'^',
        second: b'[',
    }
}

// A letter, as a capital.
#[tactic(auto, unfolding(crate::specs::Names::letter_of, crate::specs::Names::seen))]
fn letter(byte: u8) -> Option<u8>
    ensures { result ≡ S.seen (S.letter_of byte) }
{
    match byte {
        b'A'..=b'Z' => Some(byte),
        b'a'..=b'z' => Some(byte - 32),
        _ => None,
    }
}

// The letter before a place.
fn letter_before(bytes: &[u8], at: usize) -> Option<u8>
    ensures { result ≡ S.seen (S.letter_before bytes.now at) }
{
    letter(*bytes.get(at.checked_sub(1)?)?)
}

// Those of so many bytes from a place on that stand before the first letter, counted.
fn before_letter(bytes: &[u8], from: usize, most: usize) -> usize
    ensures { result ≡ length (take_while (λ b. not (is_some (S.seen (S.letter_of b)))) (take most (drop from bytes.now))) }
{
    rest(bytes, from)
        .iter()
        .take(most)
        .take_while(|b| letter(**b).is_none())
        .count()
}

// How many bytes from a place on are no letters, of so many at most.
pub fn letterless(bytes: &[u8], from: usize, most: usize) -> usize
    ensures { result ≡ S.letterless most (drop from bytes.now) }
{
    before_letter(bytes, from, most)
}

// Where the last letter before a place stands, and the letter.
fn last_letter(bytes: &[u8], at: usize) -> Option<(usize, u8)>
    ensures { result ≡ S.last_letter bytes.now at }
{
    for n in (0..at).rev() {
        if let Some(found) = letter_before(bytes, n + 1) {
            return Some((n, found));
        }
    }
    None
}

// The last two letters before a place; l is for those before these bytes.
pub fn letters_before(l: Letters, bytes: &[u8], at: usize) -> Letters
    ensures { result ≡ S.letters_before l bytes.now at }
{
    let Some((end, second)) = last_letter(bytes, at) else {
        return l;
    };
    match last_letter(bytes, end) {
        Some((_, first)) => Letters { first, second },
        None => Letters {
            first: l.second,
            second,
        },
    }
}

// The name of what is refused, with this number, on the byte before a place. With 1 it is the name that a letter completes, and nobody's where
// the byte is no letter; with another number it is the instruction that is being read, so that its name is the last two letters.
pub fn name_of(l: Letters, nobody: Letters, bytes: &[u8], at: usize, number: u8) -> Letters
    ensures { result ≡ S.name_of l nobody bytes.now at number }
{
    let earlier = at.saturating_sub(1);
    if number != 1 {
        return letters_before(l, bytes, earlier);
    }
    let Some(second) = letter_before(bytes, at) else {
        return nobody;
    };
    let before = letters_before(l, bytes, earlier);
    Letters {
        first: before.second,
        second,
    }
}
