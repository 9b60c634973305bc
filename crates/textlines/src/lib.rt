// Lines of text in a lent buffer: a stroke's five numbers, or a refusal's number and byte. specs/Text.antt has the text of each.
#![tactic(auto)]

ghost use Rattle.std.specs.Prelude.{◌+◌, ◌*◌, ◌≤◌, length};
ghost use Rattle.decimals.specs.Puts.{Puts};
ghost use Rattle.textlines.specs.Text.{stroke_at, refusal_text, mark_at, marks_below, longest};

use decimals::{put_byte, put_natural, put_whole, size};

pub mod word;

// The most bytes of a line.
pub const LONGEST: usize = 105;

// The line of the i-th five numbers, a stroke's: pen, x0, y0, x1, y1.
fn stroke_line(out: &mut [u8], at: usize, numbers: &[i64], i: usize) -> usize
    requires longest_in_bounds { at + longest ≤ length out.old }
    requires i_in_bounds { i * 5 + 5 ≤ length numbers.now }
    ensures puts { Puts (stroke_at numbers.now i) out.old out.new at result }
    ensures upper_bound { result ≤ at + longest }
{
    let pen = i * 5;
    let x0 = put_whole(out, at, numbers[pen], b' ');
    let y0 = put_whole(out, x0, numbers[pen + 1], b' ');
    let x1 = put_whole(out, y0, numbers[pen + 2], b' ');
    let y1 = put_whole(out, x1, numbers[pen + 3], b' ');
    put_whole(out, y1, numbers[pen + 4], b'\n')
}

// The line of a refusal: its number, and the byte, counted from 1.
fn refusal_line(out: &mut [u8], at: usize, number: u64, byte: u64) -> usize
    requires { at + longest ≤ length out.old }
    ensures puts { Puts (refusal_text number byte) out.old out.new at result }
    ensures upper_bound { result ≤ at + longest }
{
    let letter = put_byte(out, at, b'E');
    let first = put_byte(out, letter, b' ');
    let second = put_natural(out, first, number, b' ');
    put_natural(out, second, byte, b'\n')
}

// The line of the i-th mark: a stroke, or with the pen 0 a refusal, whose place follows so many bytes.
fn mark_line(out: &mut [u8], at: usize, numbers: &[i64], i: usize, before: u64) -> usize
    requires longest_in_bounds { at + longest ≤ length out.old }
    requires i_in_bounds { i * 5 + 5 ≤ length numbers.now }
    ensures puts { Puts (mark_at before numbers.now i) out.old out.new at result }
    ensures upper_bound { result ≤ at + longest }
{
    let pen = i * 5;
    if numbers[pen] == 0 {
        let number = size(numbers[pen + 1]);
        let byte = before.wrapping_add(size(numbers[pen + 2]));
        return refusal_line(out, at, number, byte);
    }
    stroke_line(out, at, numbers, i)
}

// The lines of the first marks of a list of numbers, which follow so many bytes.
pub fn mark_lines(out: &mut [u8], at: usize, numbers: &[i64], count: usize, before: u64) -> usize
    requires longest_in_bounds { at + count * longest ≤ length out.old }
    requires count_in_bounds { count * 5 ≤ length numbers.now }
    ensures puts { Puts (marks_below before numbers.now count) out.old out.new at result }
    ensures upper_bound { result ≤ at + count * longest }
{
    let mut end = at;
    for i in 0..count {
        end = mark_line(out, end, numbers, i, before);
    }
    end
}
