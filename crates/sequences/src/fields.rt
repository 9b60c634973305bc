// The fields of a line, and the numbers in them.
ghost use Rattle.std.specs.Prelude.{◌≤◌, ◌<◌, ◌^◌, length, nat_abs};

fn without_first_blanks(text: &[u8]) -> &[u8]
    ensures { length result.now ≤ length text.now }
{
    let from = text.iter().position(|byte| *byte != b' ');
    &text[from.unwrap_or(text.len())..]
}

fn without_last_blanks(text: &[u8]) -> &[u8]
    ensures { length result.now ≤ length text.now }
{
    let last = text.iter().rposition(|byte| *byte != b' ');
    &text[..last.map_or(0, |last| last + 1)]
}

// The n-th field of a line, counted from 0: what stands between two bars, without the blanks around it.
pub fn field(line: &[u8], n: usize) -> &[u8]
    ensures { length result.now ≤ length line.now }
{
    let field = line.split(|byte| *byte == b'|').nth(n);
    without_last_blanks(without_first_blanks(field.unwrap_or_default()))
}

// The name of a line: the second word of its first field.
pub fn name_of(line: &[u8]) -> &[u8]
    ensures { length result.now ≤ length line.now }
{
    let words = field(line, 0);
    let blank = words.iter().position(|byte| *byte == b' ');
    without_first_blanks(&words[blank.unwrap_or(words.len())..])
}

// A number that would pass 18 digits counts as the largest of 18.
const LARGEST: u64 = 999_999_999_999_999_999;

// The number that a text begins with, and what follows its digits.
pub fn natural(text: &[u8]) -> (u64, &[u8])
    ensures value { result.0 < 10 ^ 18 }
    ensures rest { length result.1.now ≤ length text.now }
{
    let mut value = 0;
    for (i, byte) in text.iter().enumerate() {
        let Some(digit) = char::from(*byte).to_digit(10) else {
            return (value, &text[i..]);
        };
        value = (value * 10 + u64::from(digit)).min(LARGEST);
    }
    (value, &[])
}

// The number after the next blanks, with its sign, and what follows it.
pub fn whole(text: &[u8]) -> (i64, &[u8])
    ensures value { nat_abs result.0 < 10 ^ 18 }
    ensures rest { length result.1.now ≤ length text.now }
{
    let number = without_first_blanks(text);
    match number.strip_prefix(b"-") {
        Some(digits) => {
            let (value, rest) = natural(digits);
            (-(value as i64), rest)
        }
        None => {
            let (value, rest) = natural(number);
            (value as i64, rest)
        }
    }
}
