// A sequence as a list of codes: its bytes, with escapes and repetitions written out, and the marks that stand between them.
ghost use Rattle.std.specs.Prelude.{ℕ, ◌≡◌, ◌<◌, ◌≤◌, ◌↔◌, length, slice_get, IfSome, IsSomeAnd};
ghost use Rattle.arrayvec.specs.ArrayVec.{array_vec_len};
ghost use Rattle.std.specs.declared.option.Option.TheVariants.{Some, None};
ghost use Rattle.sequences.specs.declared.codes.Code.TheVariants.{Plain, Fed};
ghost use Rattle.sequences.specs.declared.codes.TheConstants.{BYTES};

use crate::fields::natural;
use arrayvec::ArrayVec;

// Room for the codes of the longest sequence.
pub const ROOM: usize = 160000;

// The most bytes of a line that is fed.
pub const BYTES: usize = 4096;

// A byte, or a mark that stands between bytes.
#[derive(Clone, Copy, Default)]
pub enum Code {
    // A byte that is taken.
    Plain(u8),
    // From here on neither a fetch nor draws follow a byte.
    #[default]
    Hold,
    Draw,
    Look,
    // One fetch, with a buffer of so many bytes, at most 64.
    Fetch(u8),
    // One feed, into a list of so many records, at most 16. Its bytes come after it.
    Feed(u8),
    // A byte of a feed, which no take gets.
    Fed(u8),
}

impl Code {
    pub fn plain(self) -> Option<u8>
        ensures { (byte : ℕ) → (result ≡ Some byte) ↔ (self ≡ Plain byte) }
    {
        match self {
            Code::Plain(byte) => Some(byte),
            _ => None,
        }
    }

    pub fn fed(self) -> Option<u8>
        ensures { (byte : ℕ) → (result ≡ Some byte) ↔ (self ≡ Fed byte) }
    {
        match self {
            Code::Fed(byte) => Some(byte),
            _ => None,
        }
    }
}

// Which bytes: plain ones, or those of a feed.
#[derive(Clone, Copy)]
pub enum Kind {
    Plain,
    Fed,
}

impl Kind {
    fn byte_of(self, code: Code) -> Option<u8> {
        match self {
            Kind::Plain => code.plain(),
            Kind::Fed => code.fed(),
        }
    }
}

pub type Codes = ArrayVec<Code, ROOM>;

pub type Bytes = ArrayVec<u8, BYTES>;

// One more code. Where there is no room it is left out, and the outcome tells.
fn put_code(codes: &mut Codes, code: Code) {
    let _ = codes.try_push(code);
}

fn put_text(codes: &mut Codes, text: &[u8]) {
    let _ = codes.extend(text.iter().map(|byte| Code::Plain(*byte)));
}

fn put_decimal(codes: &mut Codes, number: u64) {
    let mut digits = [0u8; 20];
    let n = io::decimal(number, &mut digits);
    put_text(codes, &digits[..n]);
}

// The points 1,0 to k,0.
fn put_points(codes: &mut Codes, k: u64) {
    for i in 1..=k {
        if 1 < i {
            put_text(codes, b",");
        }
        put_decimal(codes, i);
        put_text(codes, b",0");
    }
}

// The value of a hexadecimal digit, A to F in either case. No `to_digit`, since a byte that is no digit has a value too.
fn nibble(digit: u8) -> u8
    ensures { result < 16 }
{
    if digit < b'A' {
        return digit % 16;
    }
    (digit % 16 + 9) % 16
}

// The byte that the digits of \x write; those past the end of the text count as zeros.
fn hexadecimal(text: &[u8]) -> u8 {
    let high = text.get(1).copied().unwrap_or(0);
    let low = text.get(2).copied().unwrap_or(0);
    nibble(high) * 16 + nibble(low)
}

// What follows so many bytes of a text, or nothing.
fn after(text: &[u8], n: usize) -> &[u8]
    ensures { length result.now ≤ length text.now }
{
    text.get(n..).unwrap_or_default()
}

// The byte that a backslash before this text writes: \n, \s (a blank), or \x and two hexadecimal digits. Answers what follows it.
fn put_escape<'a>(codes: &mut Codes, text: &'a [u8]) -> &'a [u8]
    ensures { length result.now ≤ length text.now }
{
    let (byte, size) = match text {
        [b'n', ..] => (b'\n', 1),
        [b's', ..] => (b' ', 1),
        _ => (hexadecimal(text), 3),
    };
    put_code(codes, Code::Plain(byte));
    after(text, size)
}

// {rep k text}: the text k times.
fn put_rep(codes: &mut Codes, inside: &[u8]) {
    let (times, rest) = natural(after(inside, 4));
    if let Some((_, text)) = rest.split_first() {
        for _ in 0..times {
            put_text(codes, text);
        }
    }
}

// {feed k text}: a feed of the text into k records.
fn put_feed(codes: &mut Codes, text: &[u8], inside: &[u8]) {
    let (room, _) = natural(after(text, 5));
    put_code(codes, Code::Feed(room.min(16) as u8));
    let (_, rest) = natural(after(inside, 5));
    if let Some((_, fed)) = rest.split_first() {
        let _ = codes.extend(fed.iter().map(|byte| Code::Fed(*byte)));
    }
}

// What stands between braces: hold, draw, look, fill k, fetch k, feed k text, or rep k text. The text goes on past the braces, as does a number of fewer letters.
fn put_mark(codes: &mut Codes, text: &[u8], inside: &[u8]) {
    match text {
        [b'h', ..] => put_code(codes, Code::Hold),
        [b'd', ..] => put_code(codes, Code::Draw),
        [b'l', ..] => put_code(codes, Code::Look),
        [b'f', b'i', ..] => {
            let (last, _) = natural(after(text, 5));
            put_points(codes, last);
        }
        [b'f', _, b't', ..] => {
            let (room, _) = natural(after(text, 6));
            put_code(codes, Code::Fetch(room.min(64) as u8));
        }
        [b'f', ..] => put_feed(codes, text, inside),
        _ => put_rep(codes, inside),
    }
}

// What stands in braces, of which the first is before this text. Answers what follows them.
fn put_braces<'a>(codes: &mut Codes, text: &'a [u8]) -> &'a [u8]
    ensures { length result.now ≤ length text.now }
{
    let end = text.iter().position(|byte| *byte == b'}');
    let (inside, rest) = text.split_at(end.unwrap_or(text.len()));
    put_mark(codes, text, inside);
    after(rest, 1)
}

// Writes out a sequence, behind what stands in the list.
pub fn written_out(text: &[u8], codes: &mut Codes) {
    let mut rest = text;
    // no for: a code is as many bytes as it has, some of them braces
    while let Some((byte, next)) = rest.split_first() {
        rest = match *byte {
            b'\\' => put_escape(codes, next),
            b'{' => put_braces(codes, next),
            byte => {
                put_code(codes, Code::Plain(byte));
                next
            }
        };
    }
}

// The bytes that codes begin with, of one kind, in place of what stood in their list. Those past the room that there is are left out, and the outcome tells.
pub fn bytes_into<const N: usize>(codes: &[Code], kind: Kind, bytes: &mut ArrayVec<u8, N>) {
    bytes.clear();
    let _ = bytes.extend(codes.iter().map_while(|code| kind.byte_of(*code)));
}

// The bytes that codes begin with, of whatever kind: `kind` answers the byte of each code, or none, and there they end. Those past the room that there is are left out.
// `F.post kind code r` says that `r` is what `kind` answers for a code.
pub fn bytes_of<F: Fn(Code) -> Option<u8>>(codes: &[Code], kind: F) -> Bytes
    requires { F.IsAlwaysCallable kind }
    ensures upper_bound { array_vec_len result ≤ length codes.now }
    ensures each { (k : ℕ) → k < array_vec_len result
        → IfSome (slice_get codes.now k) (λ code. IsSomeAnd (slice_get result.items k) (λ byte. F.post kind code (Some byte))) }
    ensures first_without { array_vec_len result < BYTES
        → IfSome (slice_get codes.now (array_vec_len result)) (λ code. F.post kind code None) }
{
    let mut bytes = Bytes::new();
    let _ = bytes.extend(codes.iter().map_while(|code| kind(*code)));
    bytes
}
