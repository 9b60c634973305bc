// The edge: the only functions that read an input and hand a text over. Which bytes a read gives and a write takes no contract can say. These
// functions count them, and hand over nothing but the next part of what is printed (specs/Ran.antt). The counts are one tally, which the run
// lends to them: a read whose answer is thrown away has moved it all the same, and so has a text.
ghost use Rattle.std.specs.Prelude.{◌≡◌, ◌+◌, ◌%◌, ◌^◌, ◌<◌, ◌≤◌, false, length};
ghost use Rattle.io.specs.Counts.{IsPrefixLen};
ghost use Rattle.delivery.specs.Compared.{common as common_of, line_ends};
ghost use Rattle.delivery.specs.Ran.{Next};
ghost use Rattle.delivery.specs.Tally.{Kept};

use super::files::Sink;
use machine::Machine;
use streams::{Got, Source, Stream};

// What a run counts: the bytes that its reads gave; the bytes of text that were handed over, in 64 bits; and the lines that were found the same.
#[derive(Clone, Copy, Default)]
pub struct Tally {
    pub read: u64,
    pub handed: u64,
    pub same: u64,
}

// One read.
pub fn read_block(file: &mut Stream<Source>, block: &mut [u8], tally: &mut Tally) -> Got
    requires { tally.old.read + length block.old < 2 ^ 64 }
    ensures prefix_len { IsPrefixLen result.count block.new }
    ensures tally_after { tally.new.read ≡ tally.old.read + result.count }
    ensures tally_unchanged { tally.new.handed ≡ tally.old.handed }
    ensures tally_unchanged_2 { tally.new.same ≡ tally.old.same }
    ensures count_value { result.good ≡ false → result.count ≡ 0 }
{
    let got = streams::read(file, block);
    tally.read += got.count as u64;
    got
}

// How many bytes two texts have in common at their start.
fn common(a: &[u8], b: &[u8]) -> usize
    ensures value { result ≡ common_of a.now b.now }
    ensures upper_bound { result ≤ length a.now }
{
    for (i, x) in a.iter().enumerate() {
        if i >= b.len() || *x != b[i] {
            return i;
        }
    }
    a.len()
}

fn line_ends(text: &[u8]) -> usize
    ensures { result ≡ line_ends text.now }
{
    text.iter().filter(|b| **b == b'\n').count()
}

// Compares a text with what the file has next.
fn compare(file: &mut Stream<Source>, text: &[u8], tally: &mut Tally) -> bool
    requires { length text.now ≤ 65536 }
    ensures { Kept tally.old tally.new }
{
    let mut space = io::large_buffer();
    let n = text.len();
    let got = streams::read_full(file, &mut space[..n]);
    let same = common(text, &space[..got.count]);
    tally.same = tally.same.wrapping_add(line_ends(&text[..same]) as u64);
    same == n
}

fn put(sink: &mut Sink, text: &[u8], tally: &mut Tally) -> bool
    requires { length text.now ≤ 65536 }
    ensures { Kept tally.old tally.new }
{
    match sink {
        Sink::Write(file) => streams::write_all(file, text),
        Sink::Compare(file) => compare(file, text, tally),
    }
}

// Hands a text over, which has to be the next part of what is printed from `started` of the bytes that were read, this block the last of them.
pub fn hand(started: Machine, block: &[u8], text: &[u8], sink: &mut Sink, tally: &mut Tally) -> bool
    requires text_len_bound { length text.now ≤ 65536 }
    requires next { Next started.state tally.old.read tally.old.handed block.now text.now }
    ensures tally_unchanged { tally.new.read ≡ tally.old.read }
    ensures tally_after { tally.new.handed ≡ (tally.old.handed + length text.now) % 2 ^ 64 }
{
    tally.handed = tally.handed.wrapping_add(text.len() as u64);
    put(sink, text, tally)
}
