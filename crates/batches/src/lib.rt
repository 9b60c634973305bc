// Feed by batches: what gather stores as numbers, as records, up to 64 of them at a time, and whether feed goes on after them.
#![tactic(auto)]

ghost use Rattle.std.specs.Prelude.{◌≡◌, ◌&&◌, ◌+◌, ◌*◌, ◌≤◌, ◌<◌, eqb, ltb, length, take};
ghost use Rattle.feeding.specs.DrawOff.{list_full};
ghost use Rattle.batches.specs.Batches.{Batched, blanks, begun};
ghost use Rattle.batches.specs.Records.{stroke_at, strokes_of, PenAt, PensBefore};

use hpgl::Stroke;
use machine::Machine;
use rulekit::numbers::LIST_FULL;

// A batch's strokes at most.
const MOST: usize = 64;

// The numbers of a stroke: pen and ends.
const NUMBERS: usize = 5;

// The answer: the next machine, bytes taken, strokes stored, and 01's number (0 for none), a number as gather answers it.
#[derive(Clone, Copy)]
pub struct Fed {
    pub machine: Machine,
    pub taken: usize,
    pub stored: usize,
    pub number: u8,
}

// The next strokes to store, `count` of them from the start of `list` on: an array, since there is no heap. With them feed has got to `fed`, and if there is more it goes on
// from there: a flag and no Option, since `fed` is the answer where there is no more.
#[derive(Clone, Copy)]
pub struct Batch {
    pub count: usize,
    pub more: bool,
    pub list: [Stroke; 64],
    pub fed: Fed,
}

// Records that hold nothing yet.
#[tactic(auto, unfolding(crate::specs::Batches::blanks))]
pub fn blank() -> [Stroke; 64]
    ensures { result ≡ blanks }
{
    [Stroke {
        pen: 0,
        x0: 0,
        y0: 0,
        x1: 0,
        y1: 0,
    }; 64]
}

// Nothing is fed yet: no stroke, and more to come.
pub fn begin(machine: Machine) -> Batch
    ensures { result ≡ begun machine }
{
    let list = blank();
    Batch {
        count: 0,
        more: true,
        list,
        fed: Fed {
            machine,
            taken: 0,
            stored: 0,
            number: 0,
        },
    }
}

// Stroke i of a list of numbers, which gather stored: so no pen is judged, as redrawing does of numbers that were lent.
#[tactic(auto, unfolding(crate::specs::Records::stroke_at))]
fn stroke_at(numbers: &[i64], i: usize) -> Stroke
    requires { (i * 5 + 5 ≤ length numbers.now) × PenAt numbers.now i }
    ensures { result ≡ stroke_at numbers.now i }
{
    let k = i * NUMBERS;
    let pen = numbers[k] as u8;
    let x0 = numbers[k + 1];
    let y0 = numbers[k + 2];
    let x1 = numbers[k + 3];
    let y1 = numbers[k + 4];
    Stroke {
        pen,
        x0,
        y0,
        x1,
        y1,
    }
}

// The first `count` strokes of a list of numbers.
#[tactic(auto, unfolding(crate::specs::Records::strokes_of))]
fn records(numbers: &[i64], count: usize) -> [Stroke; 64]
    requires { (count ≤ 64) × ((count * 5 ≤ length numbers.now) × PensBefore numbers.now count) }
    ensures { take count result ≡ strokes_of numbers.now count }
{
    let mut list = blank();
    for i in 0..count {
        list[i] = stroke_at(numbers, i);
    }
    list
}

// The records that a batch may fill, of those that are free.
fn batch_room(free: usize) -> usize
    ensures { (result ≤ 64) × ((result ≤ free) × (result < 64 → result ≡ free)) }
{
    free.min(MOST)
}

// Whether feed goes on after a batch that ended with a number: it was full, and the list is not.
fn goes_on(number: u8, stored: usize, room: usize) -> bool
    ensures { result ≡ (eqb number list_full && ltb stored room) }
{
    number == LIST_FULL && stored < room
}

// Room for the numbers of a batch.
fn zeros() -> [i64; 320]
    ensures { length result ≡ 320 }
{
    [0; 320]
}

// The next strokes, at most 64, from f on; the list has `room` records.
pub fn next_batch(f: Fed, bytes: &[u8], room: usize) -> Batch
    requires { f.stored ≤ room }
    ensures { Batched bytes.now room f result }
{
    let machine = f.machine;
    let most = batch_room(room - f.stored);
    let mut numbers = zeros();
    let g = machine.gather(bytes, f.taken, &mut numbers[..most * NUMBERS]);
    let list = records(&numbers, g.stored);
    let stored = f.stored + g.stored;
    let more = goes_on(g.number, stored, room);
    Batch {
        count: g.stored,
        more,
        list,
        fed: Fed {
            machine: g.machine,
            taken: g.at,
            stored,
            number: g.number,
        },
    }
}
