// The class of a byte: what it can be to a reader, whatever stands before it.
ghost use Rattle.std.specs.Prelude.{◌≡◌};
ghost use Rattle.numerals.specs.Bytes.{is_digit, is_at, class_of, low_class_of};

#[derive(Clone, Copy)]
pub enum Class {
    Blank,
    Semicolon,
    // The code of the letter in upper case.
    Letter(u8),
    // Its value, 0 to 9.
    Digit(u8),
    // Whether it is a minus.
    Sign(bool),
    Point,
    Other,
}

const TAB: u8 = 9;

const LINE_FEED: u8 = 10;

const CARRIAGE_RETURN: u8 = 13;

const SPACE: u8 = 32;

// From a capital to its small letter.
const CASE: u8 = 32;

// The class of a byte below the digits.
#[tactic(auto, using(exact::proofs::Rules::rules), unfolding(crate::specs::Bytes::low_class_of))]
fn low_class(byte: u8) -> Class
    ensures { result ≡ low_class_of byte }
{
    match byte {
        TAB | LINE_FEED | CARRIAGE_RETURN | SPACE | b',' => Class::Blank,
        b'+' => Class::Sign(false),
        b'-' => Class::Sign(true),
        b'.' => Class::Point,
        _ => Class::Other,
    }
}

#[tactic(auto, using(exact::proofs::Rules::rules), unfolding(crate::specs::Bytes::is_digit))]
pub fn is_digit(byte: u8) -> bool
    ensures { result ≡ is_digit byte }
{
    byte.is_ascii_digit()
}

// Whether this byte stands at a place; past the end none does.
#[tactic(auto, using(exact::proofs::Rules::rules), unfolding(crate::specs::Bytes::is_at))]
pub fn is_at(bytes: &[u8], at: usize, byte: u8) -> bool
    ensures { result ≡ is_at bytes.now at byte }
{
    at < bytes.len() && bytes[at] == byte
}

// The class of a byte, by tests and no match, whose order is left to the compiler. Those below the letters come first, and of letters the capitals: with so few tests most names are told.
pub fn class_of(byte: u8) -> Class
    ensures { result ≡ class_of byte }
{
    if byte < b'A' {
        if byte < b'0' {
            return low_class(byte);
        }
        if byte == b';' {
            return Class::Semicolon;
        }
        if byte <= b'9' {
            return Class::Digit(byte - b'0');
        }
        return Class::Other;
    }
    if byte <= b'Z' {
        return Class::Letter(byte);
    }
    if byte < b'a' {
        return Class::Other;
    }
    if byte <= b'z' {
        return Class::Letter(byte - CASE);
    }
    Class::Other
}
