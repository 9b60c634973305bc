// A number as it is read, mark by mark, and its value in ten-thousandths.
ghost use Rattle.std.specs.Prelude.{◌≡◌, true, ◌≤◌, ◌<◌, length, drop, get_or};
ghost use Rattle.numerals.specs.Bytes.{is_digit};
ghost use Rattle.numerals.specs.Number.{bottom, places, past_of, start_of, point_of, so_far_of, counted_of, digit_of, unit_of, ten_thousandths, signed_of, largest_of, carry_of, nearest_of, finish_of};
ghost use Rattle.numerals.specs.Run.{from_zero, reached_of, run_of, counts_whole, scanned_of, minus_length, whole_at, digits_from, number_at};

use super::bytes::{is_at, is_digit};

// Numbers and no enum, since the list of a saved machine holds them in the place of the count (saved/specs): decimals that are kept, and where those past them stand against a half of the last: below, a half so far, above.
const PLACES: u8 = 4;

const BELOW: u8 = 5;

const HALF: u8 = 6;

const ABOVE: u8 = 7;

// The largest magnitudes, in ten-thousandths: 32767.9999, and 32768 below zero.
const TOP: u64 = 327_679_999;

const BOTTOM: u64 = 327_680_000;

// Past this magnitude a number is out of range whatever follows.
const PAST: u32 = 327_680_000;

#[derive(Clone, Copy)]
pub struct Number {
    pub negative: bool,
    // Whether it has a digit, and a point.
    pub filled: bool,
    pub pointed: bool,
    // How many of its digits stand after the point, at most four; past them 5, 6 or 7, for what follows is below a half of the fourth, a half so far, or above.
    pub decimals: u8,
    // Its digits as one whole number, without the point. It stays once it is out of range.
    pub magnitude: u32,
}

// A number with digits more, and the place after them.
#[derive(Clone, Copy)]
pub struct Scanned {
    pub number: Number,
    pub at: usize,
}

// Where a run of digits ends, and the magnitude that it comes to. No type in common with Scanned: a field says which of the two is read.
#[derive(Clone, Copy)]
pub struct Run {
    pub magnitude: u32,
    pub at: usize,
}

// What the last of so many decimals counts for, in ten-thousandths.
#[tactic(auto, using(exact::proofs::Rules::rules), unfolding(crate::specs::Number::unit_of))]
fn unit(decimals: u8) -> u64
    ensures { result ≡ unit_of decimals }
{
    match decimals {
        0 => 10_000,
        1 => 1_000,
        2 => 100,
        3 => 10,
        _ => 1,
    }
}

// 1 for a digit that is at least so large, 0 for one below.
#[tactic(auto, using(exact::proofs::Rules::rules), unfolding(crate::specs::Run::reached_of))]
fn reached(digit: u8, least: u8) -> u8
    ensures { result ≡ reached_of digit least }
{
    u8::from(least <= digit)
}

// The first digit past the fourth decimal. A sum makes no branch: these digits come in no order that a processor could foresee.
fn first_past(digit: u8) -> u8
    ensures { result ≡ past_of places digit }
{
    BELOW + reached(digit, 5) + reached(digit, 6)
}

// One digit more past the fourth decimal.
#[tactic(auto, using(exact::proofs::Rules::rules), unfolding(crate::specs::Number::past_of))]
fn past(decimals: u8, digit: u8) -> u8
    ensures { result ≡ past_of decimals digit }
{
    match decimals {
        PLACES => first_past(digit),
        HALF if digit != 0 => ABOVE,
        _ => decimals,
    }
}

// What the decimals past the fourth add to the magnitude: a half goes to the larger number.
#[tactic(auto, using(exact::proofs::Rules::rules), unfolding(crate::specs::Number::carry_of))]
fn carry(negative: bool, decimals: u8) -> u64
    ensures { result ≡ carry_of negative decimals }
{
    match decimals {
        ABOVE => 1,
        HALF => u64::from(!negative),
        _ => 0,
    }
}

// The largest magnitude on either side of zero.
#[tactic(auto, using(exact::proofs::Rules::rules), unfolding(crate::specs::Number::largest_of))]
fn largest(negative: bool) -> u64
    ensures { result ≡ largest_of negative }
{
    if negative { BOTTOM } else { TOP }
}

// A magnitude with its sign.
#[tactic(auto, using(exact::proofs::Rules::rules), unfolding(crate::specs::Number::signed_of))]
fn signed(negative: bool, magnitude: u64) -> i64
    requires { magnitude ≤ bottom }
    ensures { result ≡ signed_of negative magnitude }
{
    if negative {
        -(magnitude as i64)
    } else {
        magnitude as i64
    }
}

// How far a byte stands from the digit 0: its value if it is a digit, more than 9 if not. So one number tells both, in as few instructions as there are.
#[tactic(auto, using(exact::proofs::Rules::rules), unfolding(crate::specs::Run::from_zero))]
fn from_zero(byte: u8) -> u32
    ensures { result ≡ from_zero byte }
{
    u32::from(byte).wrapping_sub(u32::from(b'0'))
}

// The digits from a place on, before a point, as long as the magnitude counts them.
fn run_from(bytes: &[u8], from: usize, start: u32) -> Run
    ensures { result ≡ run_of start (drop from bytes.now) from }
{
    let mut magnitude = start;
    for at in from..bytes.len() {
        let digit = from_zero(bytes[at]);
        if 9 < digit || PAST < magnitude {
            return Run { magnitude, at };
        }
        magnitude = magnitude * 10 + digit;
    }
    Run {
        magnitude,
        at: from.max(bytes.len()),
    }
}

// How many bytes a minus takes, where there is one.
#[tactic(auto, using(exact::proofs::Rules::rules), unfolding(crate::specs::Run::minus_length))]
fn minus_length(byte: u8) -> usize
    ensures { result ≡ minus_length byte }
{
    usize::from(byte == b'-')
}

// The number at a place up to a point. Its sign makes no branch: signs come in no order that a processor could foresee.
fn whole_at(bytes: &[u8], at: usize) -> Scanned
    requires { at < length bytes.now }
    ensures { result ≡ whole_at bytes.now at }
{
    let byte = bytes[at];
    let first = at + minus_length(byte);
    let run = run_from(bytes, first, 0);
    Scanned {
        number: Number {
            negative: byte == b'-',
            filled: first < run.at,
            pointed: false,
            decimals: 0,
            magnitude: run.magnitude,
        },
        at: run.at,
    }
}

// A number after its point, with all the digits from a place on. What they change is held in separate variables: a number is one word, taken apart and put together
// for each digit.
fn digits_from(bytes: &[u8], from: usize, start: Number) -> Scanned
    requires { start.pointed ≡ true }
    ensures { result ≡ digits_from start (drop from bytes.now) from }
{
    let mut filled = start.filled;
    let mut decimals = start.decimals;
    let mut magnitude = start.magnitude;
    for at in from..bytes.len() {
        let byte = bytes[at];
        if !is_digit(byte) {
            return Scanned {
                number: start.so_far(filled, decimals, magnitude),
                at,
            };
        }
        let digit = byte - b'0';
        filled = true;
        if PLACES <= decimals {
            decimals = past(decimals, digit);
        } else if magnitude <= PAST {
            decimals += 1;
            magnitude = magnitude * 10 + u32::from(digit);
        }
    }
    Scanned {
        number: start.so_far(filled, decimals, magnitude),
        at: from.max(bytes.len()),
    }
}

// The number at a place, as far as it goes.
pub fn number_at(bytes: &[u8], at: usize) -> Scanned
    ensures { result ≡ number_at bytes.now at }
{
    if bytes.len() <= at {
        return Scanned {
            number: Number::start(false),
            at,
        };
    }
    let whole = whole_at(bytes, at);
    let end = whole.at;
    if is_at(bytes, end, b'.') {
        return digits_from(bytes, end + 1, whole.number.with_point());
    }
    whole
}

impl Number {
    // A number of which at most the sign is read.
    #[tactic(auto, using(exact::proofs::Rules::rules), unfolding(crate::specs::Number::start_of))]
    pub fn start(negative: bool) -> Number
        ensures { result ≡ start_of negative }
    {
        Number {
            negative,
            filled: false,
            pointed: false,
            decimals: 0,
            magnitude: 0,
        }
    }

    // The number with its point.
    #[tactic(auto, using(exact::proofs::Rules::rules), unfolding(crate::specs::Number::point_of))]
    pub fn with_point(self) -> Number
        ensures { result ≡ point_of self }
    {
        Number {
            pointed: true,
            ..self
        }
    }

    pub fn has_point(self) -> bool
        ensures { result ≡ self.pointed }
    {
        self.pointed
    }

    // The number with so many decimals and that magnitude, which has a digit or has none.
    fn so_far(self, filled: bool, decimals: u8, magnitude: u32) -> Number
        ensures { result ≡ so_far_of self filled decimals magnitude }
    {
        Number {
            filled,
            decimals,
            magnitude,
            ..self
        }
    }

    // The number with a digit, so many decimals and that magnitude.
    #[tactic(auto, using(exact::proofs::Rules::rules), unfolding(crate::specs::Number::counted_of))]
    fn counted(self, decimals: u8, magnitude: u32) -> Number
        ensures { result ≡ counted_of self decimals magnitude }
    {
        self.so_far(true, decimals, magnitude)
    }

    // The number with one digit more.
    #[tactic(auto, using(exact::proofs::Rules::rules), unfolding(crate::specs::Number::digit_of))]
    pub fn with_digit(self, digit: u8) -> Number
        ensures { result ≡ digit_of self digit }
    {
        let Number {
            decimals,
            magnitude,
            pointed,
            ..
        } = self;
        if PLACES <= decimals {
            return self.counted(past(decimals, digit), magnitude);
        }
        if PAST < magnitude {
            return self.counted(decimals, magnitude);
        }
        if pointed {
            return self.counted(decimals + 1, magnitude * 10 + u32::from(digit));
        }
        self.counted(decimals, magnitude * 10 + u32::from(digit))
    }

    // Whether the next digit counts, and is no decimal.
    #[tactic(auto, using(exact::proofs::Rules::rules), unfolding(crate::specs::Run::counts_whole))]
    fn counts_whole(self) -> bool
        ensures { result ≡ counts_whole self }
    {
        !self.pointed && self.decimals < PLACES && self.magnitude <= PAST
    }

    // The number with the digit at a place, and with those after it that count, where it has no point.
    pub fn with_digits(self, bytes: &[u8], at: usize) -> Scanned
        requires { (at < length bytes.now) × (is_digit (get_or bytes.now at 0) ≡ true) }
        ensures { result ≡ scanned_of self bytes.now at }
    {
        if self.counts_whole() {
            let run = run_from(bytes, at, self.magnitude);
            return Scanned {
                number: self.counted(self.decimals, run.magnitude),
                at: run.at,
            };
        }
        Scanned {
            number: self.with_digit(bytes[at] - b'0'),
            at: at + 1,
        }
    }

    // Its magnitude in ten-thousandths.
    #[tactic(auto, using(exact::proofs::Rules::rules), unfolding(crate::specs::Number::ten_thousandths))]
    fn ten_thousandths(self) -> u64
        ensures { result ≡ ten_thousandths self }
    {
        u64::from(self.magnitude) * unit(self.decimals)
    }

    // The nearest to it, in ten-thousandths.
    #[tactic(auto, using(exact::proofs::Rules::rules), unfolding(crate::specs::Number::nearest_of))]
    fn nearest(self) -> u64
        ensures { result ≡ nearest_of self }
    {
        let kept = self.ten_thousandths();
        // Most drawings have no number with a decimal past the fourth, the others have one in each: asked so, the branch is foreseen.
        if PLACES < self.decimals {
            return kept + carry(self.negative, self.decimals);
        }
        kept
    }

    // The value of a number that has ended; none if it has no digit or is out of range.
    #[tactic(auto, using(exact::proofs::Rules::rules), unfolding(crate::specs::Number::finish_of))]
    pub fn finish(self) -> Option<i64>
        ensures { result ≡ finish_of self }
    {
        if !self.filled {
            return None;
        }
        let magnitude = self.nearest();
        if magnitude <= largest(self.negative) {
            return Some(signed(self.negative, magnitude));
        }
        None
    }
}
