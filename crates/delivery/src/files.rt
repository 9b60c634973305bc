// A machine over a file: the lines of its bytes, each reply among them, are handed over, block by block, to be written or compared.
// What a block has made is handed over before the next read, so that who sent an instruction and waits for its reply gets it.
ghost use Rattle.std.specs.Prelude.{◌≡◌, ◌+◌, ◌^◌, ◌<◌, false, length};
ghost use Rattle.hpgl.specs.Machine.{occupied};
ghost use Rattle.delivery.specs.Ran.{Begins, Leaves, Ran, Answers};
ghost use Rattle.delivery.specs.Tally.{nothing_counted, error_of};

use super::edge::{Tally, hand, read_block};
use clip::Rect;
use machine::Machine;
use plotting::{begun, emptied, fill};
use std::io::Stdout;
use streams::{Source, Stream};

// A proved loop has to end: this one reads so many blocks of at most 64 KB, which no file uses up.
const BLOCKS: u64 = 0x800000000000;

// Where the lines go: two ways, each with its file.
#[derive(Drop)]
pub enum Sink {
    // to standard output
    Write(Stream<Stdout>),
    // beside the lines of this file
    Compare(Stream<Source>),
}

impl Sink {
    // The error of the write or the read that failed.
    pub fn error(&self) -> i32
        ensures { result ≡ error_of self.now }
    {
        match self {
            Sink::Write(file) => file.error,
            Sink::Compare(file) => file.error,
        }
    }
}

// Why a run came to no good end.
#[derive(Clone, Copy)]
pub enum Fault {
    // no limits were asked for
    NoLimits,
    // fresh refuses the limits
    Refused,
    // a read of the input failed
    Unread,
    // a write failed, or a line differs
    Undelivered,
}

// What a run counted, and how it ended.
#[derive(Clone, Copy)]
pub struct Finished {
    pub tally: Tally,
    pub end: Result<(), Fault>,
}

// The lines of a block, a bufferful at a time. What is left is the machine, where all were delivered.
fn deliver_block(
    started: Machine,
    machine: Machine,
    before: u64,
    block: &[u8],
    text: &mut [u8],
    sink: &mut Sink,
    tally: &mut Tally,
) -> Result<Machine, Fault>
    requires block_bound { before + length block.now < 2 ^ 64 }
    requires text_len { length text.old ≡ 65536 }
    requires begins { Begins started.state machine.state before tally.old.read tally.old.handed block.now }
    ensures tally_unchanged { tally.new.read ≡ tally.old.read }
    ensures leaves { Leaves started.state tally.new.read tally.new.handed block.now result }
{
    let mut p = begun(machine, before);
    // a while: how much text a block makes, its plots tell
    while p.more {
        p = fill(p, block, text);
        if !hand(started, block, &text[..p.length], sink, tally) {
            return Err(Fault::Undelivered);
        }
        p = emptied(p);
    }
    Ok(p.machine)
}

// Reads the input to its end. Neither a segment nor a reply waits at first.
fn plot_file(
    started: Machine,
    file: &mut Stream<Source>,
    sink: &mut Sink,
    tally: &mut Tally,
) -> Result<(), Fault>
    requires work_value { occupied started.state.work ≡ false }
    requires nothing { tally.old ≡ nothing_counted }
    ensures { Ran started.state tally.new result }
{
    let mut block = io::large_buffer();
    let mut text = io::large_buffer();
    let mut machine = started;
    for turn in 0..BLOCKS {
        let before = tally.read;
        let got = read_block(file, &mut block, tally);
        if !got.good {
            return Err(Fault::Unread);
        }
        let n = got.count;
        if n == 0 {
            return Ok(());
        }
        machine = deliver_block(
            started,
            machine,
            before,
            &block[..n],
            &mut text,
            sink,
            tally,
        )?;
    }
    Ok(())
}

// The lines of a file, from a machine with these hard limits, where nothing is counted yet.
fn plotted(
    asked: Option<Rect>,
    file: &mut Stream<Source>,
    sink: &mut Sink,
    tally: &mut Tally,
) -> Result<(), Fault>
    requires { tally.old ≡ nothing_counted }
    ensures { Answers asked tally.new result }
{
    let Some(hard) = asked else {
        return Err(Fault::NoLimits);
    };
    let started = Machine::fresh(hard.left, hard.bottom, hard.right, hard.top);
    if started.number != 0 {
        return Err(Fault::Refused);
    }
    plot_file(started.machine, file, sink, tally)
}

// The same, and what was counted.
pub fn run(asked: Option<Rect>, file: &mut Stream<Source>, sink: &mut Sink) -> Finished
    ensures { Answers asked result.tally result.end }
{
    let mut tally = Tally::default();
    let end = plotted(asked, file, sink, &mut tally);
    Finished { tally, end }
}
