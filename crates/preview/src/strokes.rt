// The strokes of the input, each a part of the picture, with a cross where the pen stood when a byte was refused. Feed gives the strokes, in lists of at most 64.
ghost use Rattle.std.specs.Prelude.{◌+◌, ◌≤◌, length, ◌≡◌};
ghost use Rattle.console.specs.Sums.{largest};
ghost use Rattle.preview.specs.Drawing.{quiet_of, goes_on, after_of, fed_of, step_of, begun_of, flushed_of, ended_of};
ghost use Rattle.preview.specs.declared.strokes.Drawing.{Drawing};

use arguments::desk::unread;
use captions::Painted;
use console::sum;
use counting::names::{Letters, letters_before, no_letters};
use counting::refusals::{Refusals, none};
use feed::{Listed, feed_list};
use hpgl::Look;
use machine::Machine;
use noting::astray::{astray, changes, kind_at, moves, part_end};
use noting::{Inks, inks_of, is_refusal, no_inks, refused};
use output::{Text, failed};
use std::fmt;
use streams::{Source, Stream, read};
use tracing::Hand;

// A proved loop has to end: these go round so often at most, which no input uses up.
const TURNS: u64 = 0x800000000000;

// A buffer that takes every reply. Nobody reads it.
const REPLY: usize = 37;

// So many refusals have a cross.
const CROSSES: u64 = 40;

// How far the drawing is: the machine, the bytes before the block and their last letters, the place in it, what is painted, what was refused, how often, how many
// moves among it, and how much that changes the drawing, whether the carriage is astray, whether some of the block is left (a flag, since all else is told in
// either case), and the picture.
#[derive(Clone, Copy)]
struct Drawing {
    machine: Machine,
    before: u64,
    letters: Letters,
    at: usize,
    inks: Inks,
    refusals: Refusals,
    refused: u64,
    moves: u64,
    harms: u64,
    astray: bool,
    more: bool,
    hand: Hand,
}

// A reply that waits is fetched and forgotten, so that the next feed goes on.
fn quiet(machine: Machine) -> Machine
    ensures { result ≡ quiet_of machine }
{
    let mut buffer = [0; REPLY];
    let f = machine.fetch(&mut buffer);
    f.machine
}

// Whether some of a block is left after a feed.
#[tactic(auto, unfolding(crate::specs::Drawing::goes_on))]
fn goes_on(number: u8, at: usize, length: usize) -> bool
    ensures { result ≡ goes_on number at length }
{
    number != 0 || at < length
}

// A feed of what is left of the block, or of a part of it.
fn fed(d: &Drawing, block: &[u8]) -> Listed
    requires { d.now.at ≤ length block.now }
    ensures value { result ≡ fed_of d.now block.now }
    ensures few { result.fed.stored ≤ 64 }
    ensures in_bounds { d.now.at + result.fed.taken ≤ length block.now }
{
    let end = part_end(block, d.at, d.astray);
    feed_list(d.machine, &block[d.at..end])
}

// What a feed of the block from its place on leaves: its strokes are noted, and a byte that was refused; with a look before it and one after it. In place, since a
// drawing is large and a refusal is a feed.
fn note(d: &mut Drawing, l: Listed, block: &[u8], before: Look, seen: Look, hand: Hand)
    requires { (l.fed.stored ≤ 64) × (d.old.at + l.fed.taken ≤ largest) }
    ensures { d.new ≡ after_of d.old l block.now before seen hand }
{
    let fed = l.fed;
    let list = l.list;
    let number = fed.number;
    let at = d.at + fed.taken;
    let place = sum(d.before, at as u64);
    let kind = kind_at(d.letters, block, at, number);
    let stray = moves(kind);
    d.machine = quiet(fed.machine);
    d.at = at;
    d.inks = inks_of(d.inks, &list[..fed.stored]);
    d.refusals = refused(d.refusals, d.letters, block, at, number, place);
    d.refused = sum(d.refused, u64::from(is_refusal(number)));
    d.moves = sum(d.moves, u64::from(stray));
    d.harms = sum(d.harms, u64::from(changes(kind)));
    d.astray = astray(d.astray, stray, before, seen);
    d.more = goes_on(number, at, block.len());
    d.hand = hand;
}

// One feed, with its strokes as text, and a cross where the carriage stands if a byte was refused and not too many before. No Result: what is noted of the feed
// hangs on no write, and that one failed `out` remembers, which then takes nothing more.
fn step(out: &mut Text<'_>, d: &mut Drawing, block: &[u8], radius: u64)
    requires { d.old.at ≤ length block.now }
    ensures { d.new ≡ step_of d.old block.now d.new.hand }
{
    let before = d.machine.look();
    let l = fed(d, block);
    let next = l.fed;
    let list = l.list;
    let seen = next.machine.look();
    let mut hand = d.hand;
    let _ = hand.put(out, &list[..next.stored], d.astray, radius);
    if d.refused < CROSSES && is_refusal(next.number) {
        let _ = hand.cross(out, seen.location, radius);
    }
    note(d, l, block, before, seen, hand);
}

// The next block begins, with so many bytes before it.
fn begun(d: Drawing, before: u64) -> Drawing
    ensures { result ≡ begun_of d before }
{
    Drawing {
        before,
        at: 0,
        more: true,
        ..d
    }
}

// A block, with so many bytes before it, to its end or to a write that fails, which the flush after it answers.
fn paint_block(out: &mut Text<'_>, d: Drawing, before: u64, block: &[u8], radius: u64) -> Drawing {
    let mut q = begun(d, before);
    for _ in 0..TURNS {
        if !q.more || failed(out.used) {
            break;
        }
        step(out, &mut q, block, radius);
    }
    q
}

// A block is done.
fn flushed(d: Drawing, block: &[u8]) -> Drawing
    ensures { result ≡ flushed_of d block.now }
{
    Drawing {
        letters: letters_before(d.letters, block, block.len()),
        ..d
    }
}

// A block, painted, and its text written out, before the next one is read.
fn block_done(
    out: &mut Text<'_>,
    d: Drawing,
    before: u64,
    block: &[u8],
    radius: u64,
) -> Result<Drawing, fmt::Error> {
    let painted = paint_block(out, d, before, block, radius);
    out.flush()?;
    Ok(flushed(painted, block))
}

// What is left at the end, after so many bytes.
fn ended(d: Drawing, before: u64, unread: bool) -> Painted
    ensures { result ≡ ended_of d before unread }
{
    Painted {
        inks: d.inks,
        refusals: d.refusals,
        refused: d.refused,
        moves: d.moves,
        harms: d.harms,
        read: before,
        unread,
    }
}

// Nothing is read yet.
fn blank(machine: Machine) -> Drawing
    ensures { result.machine ≡ machine }
{
    Drawing {
        machine,
        before: 0,
        letters: no_letters(),
        at: 0,
        inks: no_inks(),
        refusals: none(),
        refused: 0,
        moves: 0,
        harms: 0,
        astray: false,
        more: true,
        hand: Hand::new(),
    }
}

// Paints the input to its end, or to a read or a write that fails. A read that fails is told at once. Nothing is written before something is read.
pub fn paint(
    out: &mut Text<'_>,
    machine: Machine,
    radius: u64,
    file: usize,
    source: &mut Stream<Source>,
) -> Result<Painted, fmt::Error> {
    let mut block = io::large_buffer();
    let mut d = blank(machine);
    let mut before = 0;
    let mut missing = false;
    for _ in 0..TURNS {
        let got = read(source, &mut block);
        if !got.good {
            unread(out.rt, b"preview", file, source.error);
            missing = true;
            break;
        }
        if got.count == 0 {
            break;
        }
        d = block_done(out, d, before, &block[..got.count], radius)?;
        before = sum(before, got.count as u64);
    }
    d.hand.close(out)?;
    Ok(ended(d, before, missing))
}
