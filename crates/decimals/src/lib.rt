// Whole numbers as decimal text in a lent buffer, and any text byte by byte. specs/Decimal.antt has the text of each, specs/Puts.antt what it is to put one.
// No `impl Write` and no struct of the buffer and the place in it: `fmt` allocates or promises no text, and each put_ function says by `Puts` where the text stands in the buffer that C lends.
#![tactic(auto)]

ghost use Rattle.std.specs.Prelude.{◌∷◌, [], ◌≡◌, ◌+◌, ◌<◌, ◌≤◌, nat_abs, length};
ghost use Rattle.decimals.specs.Decimal.{decimal, two, four, natural, sign, whole};
ghost use Rattle.decimals.specs.Decimal.{digit as digit_of};
ghost use Rattle.decimals.specs.Puts.{Puts};

// One byte.
pub fn put_byte(out: &mut [u8], at: usize, byte: u8) -> usize
    requires { at < length out.old }
    ensures { Puts (byte ∷ []) out.old out.new at result }
{
    out[at] = byte;
    at + 1
}

fn digit_code(digit: u64) -> u8
    requires { digit < 10 }
    ensures { result ≡ digit_of digit }
{
    b'0' + digit as u8
}

// Two digits, the first of which may be a zero.
fn put_two(out: &mut [u8], at: usize, n: u64) -> usize
    requires n_bound { n < 100 }
    requires at_in_bounds { at + 2 ≤ length out.old }
    ensures { Puts (two n) out.old out.new at result }
{
    let next = put_byte(out, at, digit_code(n / 10));
    put_byte(out, next, digit_code(n % 10))
}

// Four digits.
fn put_four(out: &mut [u8], at: usize, n: u64) -> usize
    requires n_bound { n < 10000 }
    requires at_in_bounds { at + 4 ≤ length out.old }
    ensures { Puts (four n) out.old out.new at result }
{
    let next = put_two(out, at, n / 100);
    put_two(out, next, n % 100)
}

// The digits of a number below 10,000, as most numbers of a sheet are.
fn put_short(out: &mut [u8], at: usize, n: u64) -> usize
    requires n_bound { n < 10000 }
    requires n_in_bounds { at + length (decimal n) ≤ length out.old }
    ensures { Puts (decimal n) out.old out.new at result }
{
    if n < 10 {
        return put_byte(out, at, digit_code(n));
    }
    if n < 100 {
        return put_two(out, at, n);
    }
    if n < 1000 {
        let next = put_byte(out, at, digit_code(n / 100));
        return put_two(out, next, n % 100);
    }
    put_four(out, at, n)
}

// The digits of a number: those before the last four, and these.
fn put_decimal(out: &mut [u8], at: usize, n: u64) -> usize
    requires { at + length (decimal n) ≤ length out.old }
    ensures { Puts (decimal n) out.old out.new at result }
{
    if n < 10000 {
        return put_short(out, at, n);
    }
    let next = put_decimal(out, at, n / 10000);
    put_four(out, next, n % 10000)
}

// A text as it is.
pub fn put_text(out: &mut [u8], at: usize, text: &[u8]) -> usize
    requires { at + length text.now ≤ length out.old }
    ensures { Puts text.now out.old out.new at result }
{
    let mut end = at;
    for byte in text {
        end = put_byte(out, end, *byte);
    }
    end
}

// A number that is not below 0, and the byte after it.
pub fn put_natural(out: &mut [u8], at: usize, n: u64, byte: u8) -> usize
    requires { at + length (natural n byte) ≤ length out.old }
    ensures { Puts (natural n byte) out.old out.new at result }
{
    // most numbers are short, and a call that calls itself is never built in
    if n < 10000 {
        let next = put_short(out, at, n);
        return put_byte(out, next, byte);
    }
    let next = put_decimal(out, at, n);
    put_byte(out, next, byte)
}

// The size of a number; the least one has no positive one beside it.
pub fn size(z: i64) -> u64
    ensures { result ≡ nat_abs z }
{
    z.unsigned_abs()
}

// How many bytes a number's sign takes.
fn sign_length(z: i64) -> usize
    ensures { result ≡ length (sign z) }
{
    usize::from(z < 0)
}

// Any number, and the byte after it.
pub fn put_whole(out: &mut [u8], at: usize, z: i64, byte: u8) -> usize
    requires { at + length (whole z byte) ≤ length out.old }
    ensures { Puts (whole z byte) out.old out.new at result }
{
    // in any case, and the first digit takes its place where there is no sign: signs come in no order that a processor could foresee
    out[at] = b'-';
    let next = at + sign_length(z);
    put_natural(out, next, size(z), byte)
}
