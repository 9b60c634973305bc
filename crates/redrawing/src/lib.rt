// Strokes back into HP-GL (document 02, CR 6): a list of strokes written as text into a lent output. The crate redrawn says which text, which numbers and what is left of the
// output, and proves that a fresh machine reads the strokes back.
#![tactic(auto)]

ghost use Rattle.std.specs.Prelude.{true, ◌≡◌, ◌+◌, ◌*◌, ◌^◌, ◌≤◌, ◌<◌, List, nat_abs, length};
ghost use Rattle.decimals.specs.Decimal.{decimal};
ghost use Rattle.decimals.specs.Puts.{Puts};
ghost use Rattle.hpgl.specs.declared.Stroke.{Stroke as AStroke};
ghost use Rattle.redrawn.specs.Redrawn.{start_text, move_text, change_text, stroke_text, text_of, fits_in, stroke_at, strokes_in, written_of, output_of};
ghost use Rattle.redrawn.specs.Redrawn as R;
ghost use Rattle.redrawing.specs.Lists.{nth};
ghost use Rattle.redrawing.specs.RedrawingLaws.{bytes_of};

use decimals::{put_byte, put_natural, put_whole, size};
use exact::int16;
use hpgl::Stroke;
pub use redrawn::Refusal;
use rows::{byte_of, row_at};

mod drafts;

pub use drafts::{Draft, Written, begin, next, turned};

// "Pens are 1 to 8."
const LEAST_PEN: u8 = 1;

const MOST_PEN: u8 = 8;

// The numbers of a stroke: pen and ends.
const NUMBERS: usize = 5;

// The bytes of IN and its semicolon.
const START: usize = 3;

// ---- which strokes can be written

// Whether a number is a pen's.
#[tactic(auto, unfolding(redrawn::specs::Redrawn::is_pen))]
fn is_pen(p: u8) -> bool
    ensures { result ≡ R.is_pen p }
{
    LEAST_PEN <= p && p <= MOST_PEN
}

// Whether a stroke has such a pen and its ends are in range.
#[tactic(auto, unfolding(redrawn::specs::Redrawn::writable))]
fn writable(s: Stroke) -> bool
    ensures { result ≡ R.writable s }
{
    is_pen(s.pen) && int16(s.x0) && int16(s.y0) && int16(s.x1) && int16(s.y1)
}

// ---- a list of strokes: of records, or of numbers

pub trait Strokes {
    ghost strokes: { Self → List AStroke };

    fn count(&self) -> usize
        ensures { result ≡ length (strokes self.now) };

    fn stroke(&self, i: usize) -> Stroke
        requires { i < length (strokes self.now) }
        ensures { result ≡ nth (strokes self.now) i };
}

impl Strokes for &[Stroke] {
    ghost strokes = { λ list. list.now };

    fn count(&self) -> usize {
        self.len()
    }

    fn stroke(&self, i: usize) -> Stroke {
        self[i]
    }
}

// five numbers for each
impl Strokes for &[i64] {
    ghost strokes = { λ numbers. strokes_in numbers.now };

    fn count(&self) -> usize {
        self.len() / NUMBERS
    }

    fn stroke(&self, i: usize) -> Stroke {
        stroke_at(self, i)
    }
}

// Stroke i of a list of numbers.
fn stroke_at(numbers: &[i64], i: usize) -> Stroke
    requires { i * 5 + 5 ≤ length numbers.now }
    ensures { result ≡ stroke_at numbers.now i }
{
    let row = row_at(numbers, i * NUMBERS);
    Stroke {
        pen: byte_of(row.a),
        x0: row.b,
        y0: row.c,
        x1: row.d,
        y1: row.e,
    }
}

// ---- how long the text is

// How many digits a number has.
fn digits(n: u64) -> usize
    requires { n < 100000 }
    ensures { result ≡ length (decimal n) }
{
    if n < 10 {
        return 1;
    }
    if n < 100 {
        return 2;
    }
    if n < 1000 {
        return 3;
    }
    if n < 10000 {
        return 4;
    }
    5
}

// The bytes of a number, with the one after it.
fn number_length(z: i64) -> usize
    requires { nat_abs z < 100000 }
    ensures { result ≡ bytes_of z }
{
    if z < 0 {
        return 2 + digits(size(z));
    }
    1 + digits(size(z))
}

// The bytes of a stroke after one with another pen or with the same.
fn stroke_length(before: u8, s: Stroke) -> usize
    requires { R.writable s ≡ true }
    ensures { result ≡ length (stroke_text before s) }
{
    let start = number_length(s.x0) + number_length(s.y0);
    let end = number_length(s.x1) + number_length(s.y1);
    if s.pen == before {
        return 4 + start + end;
    }
    8 + start + end
}

// ---- the text

// IN, which makes the machine as fresh.
fn put_start(out: &mut [u8], at: usize) -> usize
    requires { at + 3 ≤ length out.old }
    ensures { Puts start_text out.old out.new at result }
{
    let first = put_byte(out, at, b'I');
    let second = put_byte(out, first, b'N');
    put_byte(out, second, b';')
}

// SP, where the pen is another than before.
fn put_change(out: &mut [u8], at: usize, before: u8, pen: u8) -> usize
    requires { at + length (change_text before pen) ≤ length out.old }
    ensures { Puts (change_text before pen) out.old out.new at result }
{
    if pen == before {
        return at;
    }
    let first = put_byte(out, at, b'S');
    let second = put_byte(out, first, b'P');
    put_natural(out, second, pen as u64, b';')
}

// PU or PD, by its second letter, to a point.
fn put_move(out: &mut [u8], at: usize, letter: u8, x: i64, y: i64) -> usize
    requires { at + length (move_text letter x y) ≤ length out.old }
    ensures { Puts (move_text letter x y) out.old out.new at result }
{
    let first = put_byte(out, at, b'P');
    let second = put_byte(out, first, letter);
    let third = put_whole(out, second, x, b',');
    put_whole(out, third, y, b';')
}

// A stroke after one with the pen before.
fn put_stroke(out: &mut [u8], at: usize, before: u8, s: Stroke) -> usize
    requires { at + length (stroke_text before s) ≤ length out.old }
    ensures { Puts (stroke_text before s) out.old out.new at result }
{
    let up = put_change(out, at, before, s.pen);
    let down = put_move(out, up, b'U', s.x0, s.y0);
    put_move(out, down, b'D', s.x1, s.y1)
}

// ---- the list, judged and then written

// Whether each stroke can be written.
fn all_writable<S: Strokes>(list: &S) -> bool
    ensures { result ≡ R.all_writable (S.strokes list.now) }
{
    for i in 0..list.count() {
        if !writable(list.stroke(i)) {
            return false;
        }
    }
    true
}

// Whether an output of so many bytes has room for the text.
fn fits<S: Strokes>(list: &S, room: usize) -> bool
    requires { R.all_writable (S.strokes list.now) ≡ true }
    ensures { result ≡ fits_in (S.strokes list.now) room }
{
    if room < START {
        return false;
    }
    let mut left = room - START;
    let mut before = 0;
    for i in 0..list.count() {
        let s = list.stroke(i);
        let n = stroke_length(before, s);
        if left < n {
            return false;
        }
        left -= n;
        before = s.pen;
    }
    true
}

// The text from the start of the output on. It begins with IN.
fn put_strokes<S: Strokes>(list: &S, out: &mut [u8]) -> usize
    requires writable { R.all_writable (S.strokes list.now) ≡ true }
    requires room { length (text_of (S.strokes list.now)) ≤ length out.old }
    ensures { Puts (text_of (S.strokes list.now)) out.old out.new 0 result }
{
    let mut end = put_start(out, 0);
    let mut before = 0;
    for i in 0..list.count() {
        let s = list.stroke(i);
        end = put_stroke(out, end, before, s);
        before = s.pen;
    }
    end
}

// Writes strokes as HP-GL into the output from its start on, and answers how many bytes.
pub fn put_list<S: Strokes>(list: &S, out: &mut [u8]) -> Result<usize, Refusal>
    ensures value { result ≡ written_of (S.strokes list.now) (length out.old) }
    ensures out_after { out.new ≡ output_of (S.strokes list.now) out.old }
{
    if !all_writable(list) {
        return Err(Refusal::NotWritable);
    }
    if !fits(list, out.len()) {
        return Err(Refusal::TooShort);
    }
    Ok(put_strokes(list, out))
}

// The same of five numbers for each stroke.
pub fn write(numbers: &[i64], out: &mut [u8]) -> Result<usize, Refusal>
    ensures value { result ≡ written_of (strokes_in numbers.now) (length out.old) }
    ensures out_after { out.new ≡ output_of (strokes_in numbers.now) out.old }
{
    put_list(&numbers, out)
}
