// Feed (document 01, "The calls"): bytes in, strokes out into a lent list of records.
#![tactic(auto)]

ghost use Rattle.std.specs.Prelude.{◌≡◌, length};
ghost use Rattle.feeding.specs.Feed.{feed_of, laid};
ghost use Rattle.batches.specs.Batches.{fed_by};
ghost use Rattle.feed.specs.Fed.{fed_of, listed_by, listed_of};

pub use batches::Fed;
use batches::{begin, blank, next_batch};
use hpgl::Stroke;
use machine::Machine;

// Feeds bytes, up to one that is refused or a stroke for which the list has no room, and stores the strokes from the start of the list on.
pub fn feed(machine: Machine, bytes: &[u8], out: &mut [Stroke]) -> Fed
    ensures value { fed_by result ≡ fed_of (feed_of machine.state bytes.now (length out.old)) }
    ensures out_after { out.new ≡ laid (feed_of machine.state bytes.now (length out.old)).strokes out.old }
{
    let mut b = begin(machine);
    // a while: how far a batch gets, its strokes tell
    while b.more {
        b = next_batch(b.fed, bytes, out.len());
        let end = b.fed.stored;
        let from = end - b.count;
        out[from..end].copy_from_slice(&b.list[..b.count]);
    }
    b.fed
}

// A list of records by value, and the answer of a feed into it, which counts them: an array, since there is no heap.
#[derive(Clone, Copy)]
pub struct Listed {
    pub list: [Stroke; 64],
    pub fed: Fed,
}

// A feed into a list of its own, for a caller that has no records to lend: such a caller is covered by the prover.
pub fn feed_list(machine: Machine, bytes: &[u8]) -> Listed
    ensures { listed_by result ≡ listed_of (feed_of machine.state bytes.now 64) }
{
    let mut list = blank();
    let fed = feed(machine, bytes, &mut list);
    Listed { list, fed }
}
