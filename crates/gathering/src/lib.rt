// Feed and plot of document 01's machine into a list of plain numbers: its state is taken apart once, and a part is touched by the events that change it alone.
#![tactic(auto)]

ghost use Rattle.std.specs.Prelude.{◌≡◌, true, List, ℕ, ◌/◌, ◌*◌, ◌+◌, ◌^◌, ◌<◌, ◌≤◌, length, drop};
ghost use Rattle.sines.specs.Table as T;
ghost use Rattle.hpgl.specs.declared.Edge.{Edge};
ghost use Rattle.hpgl.specs.declared.Work.TheVariants.{Chords};
ghost use Rattle.hpgl.specs.Machine.{waiting};
ghost use Rattle.hpgl.specs.Machine as M;
ghost use Rattle.feeding.specs.Plot.{refusal};
ghost use Rattle.hpgl.specs.Valid.{Valid, ValidAction};
ghost use Rattle.gathering.specs.Gather as S;
ghost use Rattle.gathering.specs.Far as F;

use hpgl::{Action, Circle, Core, Drawn, Pen, Segment, State, Store, Stroke, Work};
use instructions::events::end_rule;
use mnemonics::{EP, takes_pairs};
use queue::drawing::{drawn_of, edge_place, segment, vertex, work_after};
use queue::storing::{queued, stored, waiting};
use reader::{Event, Reader};
use rulekit::hand::{core_of, hand_of, noted};
use rulekit::numbers::{BUSY, LIST_FULL};
use rulekit::places::{Frame, frame_of, located_in};
use shapes::moves::{letters, line_of, longer, name_number, point, shift};
use sines::table;

// The numbers of a record: pen and ends of a stroke.
const NUMBERS: usize = 5;

// How far a feed or a plot went: the state, the place of the next byte, how many records are stored, and 01's number.
#[derive(Clone, Copy)]
pub struct Stopped {
    pub state: State,
    pub at: usize,
    pub stored: usize,
    pub number: u8,
}

// The parts put together again.
fn gathered(
    reader: Reader,
    core: Core,
    store: Store,
    work: Work,
    at: usize,
    count: usize,
    number: u8,
) -> Stopped
    ensures { result ≡ S.stopped_as (S.whole reader core store work) at count number }
{
    Stopped {
        state: State {
            reader,
            core,
            store,
            work,
        },
        at,
        stored: count,
        number,
    }
}

// Stores a record after `count` others, and answers how many there are then: five stores, where a slice of an array would be made first and copied.
#[tactic(auto, unfolding(crate::specs::Gather::with_stroke))]
fn put_record(numbers: &mut [i64], count: usize, s: Stroke) -> usize
    requires { count * 5 + 5 ≤ length numbers.old }
    ensures value { result ≡ count + 1 }
    ensures numbers_after { numbers.new ≡ S.with_stroke s (count * 5) numbers.old }
{
    let k = count * NUMBERS;
    numbers[k] = s.pen as i64;
    numbers[k + 1] = s.x0;
    numbers[k + 2] = s.y0;
    numbers[k + 3] = s.x1;
    numbers[k + 4] = s.y1;
    count + 1
}

// Stores what was drawn after `count` records, and answers how many there are then.
#[tactic(auto, unfolding(crate::specs::Gather::count_after, crate::specs::Gather::put_of))]
fn put(numbers: &mut [i64], count: usize, d: Drawn) -> usize
    requires { S.count_after d count * 5 ≤ length numbers.old }
    ensures value { result ≡ S.count_after d count }
    ensures numbers_after { numbers.new ≡ S.put_of d (count * 5) numbers.old }
{
    match d {
        Drawn::Idle | Drawn::Hidden => count,
        Drawn::Stroke(s) => put_record(numbers, count, s),
    }
}

// The record of a refusal; no stroke has pen 0.
fn refusal_record(number: u8, at: usize) -> Stroke
    requires { at < 2 ^ 63 }
    ensures { result ≡ S.record_of (refusal number at) }
{
    Stroke {
        pen: 0,
        x0: number as i64,
        y0: at as i64,
        x1: 0,
        y1: 0,
    }
}

// Whether there is anything left to do: a byte, of as many as `end`, or a segment.
#[tactic(auto, unfolding(crate::specs::Gather::remains_of))]
fn remains(w: Work, at: usize, end: usize) -> bool
    ensures { result ≡ S.remains_of w at end }
{
    at < end || 0 < waiting(w)
}

// 01's number where all records are used and what comes next needs one, or 0: segments that wait do, and, where refusals are stored, any byte.
#[tactic(auto, unfolding(crate::specs::Gather::stuck_of))]
fn full(on: bool, segments: u16, count: usize, room: usize) -> u8
    requires { count ≤ room }
    ensures { result ≡ S.full_of on segments count room }
{
    if count == room && (on || 0 < segments) {
        LIST_FULL
    } else {
        0
    }
}

// The number that ends it before what comes next, or 0: where a reply waits no byte is taken. What waits is told once, so that a turn of the loop has one branch for it.
#[tactic(auto, unfolding(hpgl::specs::Machine::replied, hpgl::specs::Machine::replying, hpgl::specs::Machine::waiting, crate::specs::Gather::halted_of))]
fn halted(on: bool, w: Work, count: usize, room: usize) -> u8
    requires { count ≤ room }
    ensures { result ≡ S.halted_of on w count room }
{
    match w {
        Work::Nothing => full(on, 0, count, room),
        Work::Line(..) => full(on, 1, count, room),
        Work::Chords(_, _, n) => full(on, n, count, room),
        Work::Edges(_, n) => full(on, n as u16, count, room),
        Work::Answer(r) => {
            if r.count != 0 {
                BUSY
            } else {
                full(on, 0, count, room)
            }
        }
    }
}

// Whether a segment may need a record, of which all are used.
#[tactic(auto, unfolding(crate::specs::Gather::overflows_of))]
fn overflows(s: Segment, count: usize, room: usize) -> bool
    ensures { result ≡ S.overflows_of s count room }
{
    matches!(s, Segment::Line(..)) && count == room
}

// What EP leaves waiting: the stored edges, if the pen has paint.
#[tactic(auto, unfolding(crate::specs::Gather::outline_of))]
fn outline(pen: Pen, edges: u8) -> Work
    ensures { result ≡ S.outline_of pen edges }
{
    if pen.number == 0 {
        Work::Nothing
    } else {
        Work::Edges(0, edges)
    }
}

// How far work was drawn: what still waits, and the count.
#[derive(Clone, Copy)]
struct Progress {
    work: Work,
    count: usize,
}

// Draws chords that wait, up to the last, or one with no record left. A vertex at which two of them meet is found once.
fn chords(
    frame: Frame,
    pen: u8,
    circle: Circle,
    from: u16,
    many: u16,
    sines: &[u32],
    numbers: &mut [i64],
    before: usize,
) -> Progress
    requires { F.Batching numbers.old frame pen (Chords circle from many) before × (before < length numbers.old / 5) × (sines.now ≡ T.sines) }
    ensures work_bound { waiting result.work < many }
    ensures drew { (d : F.Batching numbers.old frame pen (Chords circle from many) before) → F.Drew d numbers.new result.work result.count }
{
    let room = numbers.len() / NUMBERS;
    let mut count = before;
    let mut corner = vertex(frame.rows, circle, from, sines);
    for k in 0..many {
        if count == room {
            return Progress {
                work: Work::Chords(circle, from + k, many - k),
                count,
            };
        }
        let end = vertex(frame.rows, circle, from + k + 1, sines);
        let drawn = drawn_of(frame.limits, pen, Segment::Line(corner, end));
        count = put(numbers, count, drawn);
        corner = end;
    }
    Progress {
        work: Work::Nothing,
        count,
    }
}

// Whether work is drawn by a loop of its own.
#[tactic(auto, unfolding(crate::specs::Gather::batched_of))]
fn batched(w: Work) -> bool
    ensures { result ≡ S.batched_of w }
{
    matches!(w, Work::Chords(..))
}

// Draws such work, up to its last segment, or one with no record left.
#[tactic(auto, unfolding(crate::specs::Gather::batched_of))]
fn batch(
    frame: Frame,
    pen: u8,
    w: Work,
    sines: &[u32],
    numbers: &mut [i64],
    before: usize,
) -> Progress
    requires { F.Batching numbers.old frame pen w before × (before < length numbers.old / 5) × (sines.now ≡ T.sines) × (S.batched_of w ≡ true) }
    ensures work_bound { waiting result.work < waiting w }
    ensures drew { (d : F.Batching numbers.old frame pen w before) → F.Drew d numbers.new result.work result.count }
{
    if let Work::Chords(circle, i, n) = w {
        chords(frame, pen, circle, i, n, sines, numbers, before)
    } else {
        Progress {
            work: w,
            count: before,
        }
    }
}

// Whether an action changes the store by more than one edge.
#[tactic(auto, unfolding(crate::specs::Gather::heavy_of))]
fn heavy(a: Action) -> bool
    ensures { result ≡ S.heavy_of a }
{
    matches!(a, Action::Rectangle(..))
}

// The store after an action of a polygon that had `edges` edges, and what waits where it has `count`.
#[derive(Clone, Copy)]
struct Remade {
    store: Store,
    work: Work,
}

fn carried(store: Store, edges: u8, count: u8, a: Action) -> Remade
    requires { ValidAction edges a }
    ensures { (result.store.edges ≡ M.stored store.edges edges a) × ((t : ℕ) (es : List Edge) → result.work ≡ M.queued t es count a) }
{
    Remade {
        store: stored(store, edges, a),
        work: queued(count, a),
    }
}

// Draws while a segment waits, else takes bytes up to the next that means something, up to the last, or one with no room for what it may leave.
// The line of a pair is drawn at once where there is a record for it. A byte that is refused ends it, or it goes on with the refusal stored.
// An event that is carried out ends its turn; what is left below is a refusal. Whether it goes on is a flag and no closure: it says as well whether a refusal has a record.
pub fn gather(m: State, bytes: &[u8], from: usize, numbers: &mut [i64], on: bool) -> Stopped
    requires { Valid m }
    ensures { S.Gathers (S.gather_from on m (drop from bytes.now) from (length numbers.old / 5)) numbers.old numbers.new result }
{
    let sines = table();
    let first = m.core;
    let carriage = first.carriage;
    let position = carriage.position;
    let mut reader = m.reader;
    let mut settings = first.settings;
    let mut frame = frame_of(settings);
    let mut hand = hand_of(carriage);
    let mut here = located_in(frame, position);
    let mut polygon = carriage.polygon;
    let mut store = m.store;
    let mut work = m.work;
    let mut at = from;
    let mut count = 0;
    let room = numbers.len() / NUMBERS;
    // no for: a turn takes as many bytes as the reader passes over, or none while work waits
    while remains(work, at, bytes.len()) {
        let halt = halted(on, work, count, room);
        if halt > 0 {
            let core = core_of(settings, hand, polygon);
            return gathered(reader, core, store, work, at, count, halt);
        }
        if 0 < waiting(work) {
            let pen = hand.pen;
            if batched(work) {
                let b = batch(frame, pen.number, work, &sines, numbers, count);
                count = b.count;
                work = b.work;
                continue;
            }
            let e = store.edges[edge_place(work)];
            let s = segment(frame.rows, e, work, here, here);
            let drawn = drawn_of(frame.limits, pen.number, s);
            count = put(numbers, count, drawn);
            work = work_after(work);
            continue;
        }
        let q = reading::next(reader, bytes, at);
        at = q.at;
        reader = q.reader;
        work = Work::Nothing;
        let event = q.event;
        let edges = polygon.edges;
        let mut number: u8 = 0;
        match event {
            Event::Nothing => continue,
            Event::Named(op) => {
                number = name_number(polygon.mode, op);
                if number == 0 {
                    hand = letters(hand, op);
                    continue;
                }
            }
            Event::Pair(n) => {
                if polygon.mode {
                    let t = point(frame, hand, here, polygon.bytes, n);
                    number = t.number;
                    if number == 0 {
                        hand = t.hand;
                        here = t.here;
                        if polygon.empty {
                            polygon = longer(polygon, t.cost, hand.position);
                            continue;
                        }
                        // in its place: the store is large
                        let e = t.edge;
                        let k = edges as usize;
                        store.edges[k] = e;
                        polygon = longer(polygon, t.cost, hand.position);
                        continue;
                    }
                } else {
                    let t = shift(frame, hand, here, n);
                    number = t.number;
                    if number == 0 {
                        hand = t.hand;
                        here = t.here;
                        let line = t.segment;
                        if overflows(line, count, room) {
                            work = queued(edges, line_of(line));
                            let core = core_of(settings, hand, polygon);
                            return gathered(reader, core, store, work, at, count, LIST_FULL);
                        }
                        let pen = hand.pen;
                        let drawn = drawn_of(frame.limits, pen.number, line);
                        count = put(numbers, count, drawn);
                        continue;
                    }
                }
            }
            Event::Ended(op, n) => {
                if takes_pairs(op) {
                    continue;
                }
                if op == EP {
                    // once for each polygon: no core is put together for it
                    work = outline(hand.pen, edges);
                    continue;
                }
                let t = end_rule(core_of(settings, hand, polygon), op, n);
                let core = t.core;
                let carriage = core.carriage;
                let position = carriage.position;
                settings = core.settings;
                frame = frame_of(settings);
                hand = hand_of(carriage);
                here = located_in(frame, position);
                polygon = carriage.polygon;
                if t.number > 0 {
                    // PM2 may be refused and end polygon mode all the same
                    reader = reading::passed_over(reader);
                    hand = noted(hand, t.number);
                    if on {
                        count = put_record(numbers, count, refusal_record(t.number, at));
                        continue;
                    }
                    let left = core_of(settings, hand, polygon);
                    return gathered(reader, left, store, work, at, count, t.number);
                }
                let action = t.action;
                if let Action::Join(e) = action {
                    let k = edges as usize;
                    store.edges[k] = e;
                    continue;
                }
                if heavy(action) {
                    let c = carried(store, edges, polygon.edges, action);
                    store = c.store;
                    work = c.work;
                    continue;
                }
                work = queued(polygon.edges, action);
                continue;
            }
            Event::Refused(k) => number = k,
        }
        // refused: but for what is remembered of it, all else is as it was
        reader = reading::passed_over(reader);
        hand = noted(hand, number);
        if on {
            count = put_record(numbers, count, refusal_record(number, at));
            continue;
        }
        let core = core_of(settings, hand, polygon);
        return gathered(reader, core, store, work, at, count, number);
    }
    let core = core_of(settings, hand, polygon);
    gathered(reader, core, store, work, at, count, 0)
}
