// A drawing from its first byte to its last: the machine runs up to a refusal or to what waits; each segment is counted as it is drawn, and each reply as it is fetched.
// A machine is large, and to hand it over and back takes as long as to read dozens of bytes: those without letters, of which nothing but refusals can
// come, are taken a stretch at a time.
#![tactic(auto)]

ghost use Rattle.std.specs.Prelude.{false, ◌≡◌, ◌*◌, ◌≤◌, length, take};
ghost use Rattle.hpgl.specs.Machine.{waiting, occupied};
ghost use Rattle.repeats.specs.Repeats.{painted_all};
ghost use Rattle.surveying.specs.States.{drawing_by, painted_by, replied_by, watched_by};
ghost use Rattle.surveying.specs.Strokes as T;
ghost use Rattle.surveying.specs.Drawing as S;

use console::sum;
use counting::names::{Letters, escape_letters, letterless, letters_before, name_of, no_letters};
use counting::refusals::{Refusals, none, noted};
use counting::tally::{Tally, counted, nothing};
use counting::verdict::segments;
use decimals::size;
use hpgl::{Drawn, Segment, Stroke};
use inking::inked;
use machine::Machine;
use reader::UNKNOWN;
use repeats::{ROOM, Repeats, painted, told};
use rows::Row;
use rulekit::numbers::BUSY;
use scanning::escapes::{Escapes, belongs, broken_at_end, escapes_in, no_escapes};
use scanning::{Types, mode_after, no_types, piece, types_in};
use streams::{Source, Stream, read, tell, write_all};

// A proved loop has to end: this one reads so many blocks at most, which no input uses up.
const TURNS: u64 = 0x800000000000;

// A stretch has at most so many bytes, so that a plot has a record for each, of five numbers. One shorter than SHORT is not worth a plot.
const STRETCH: usize = 256;

const NUMBERS: usize = STRETCH * 5;

const SHORT: usize = 8;

// A buffer that takes every reply. Nobody reads it: a designer's package is not at the other end.
const REPLY: usize = 37;

// How far the drawing is at the beginning of a block: the machine, the bytes before the block and the last letters of these, the name of a byte of
// the block that belongs to none, what is counted, what was refused, and how many replies were made.
#[derive(Clone, Copy)]
struct Drawing {
    machine: Machine,
    before: u64,
    letters: Letters,
    nobody: Letters,
    tally: Tally,
    refusals: Refusals,
    replies: u64,
}

// What drawing leaves: the machine, and the counts. This and the next are structs and no tuples, so that each part has its name.
#[derive(Clone, Copy)]
struct Painted {
    machine: Machine,
    tally: Tally,
}

// What a fetch leaves: the machine, and the count of replies.
#[derive(Clone, Copy)]
struct Replied {
    machine: Machine,
    replies: u64,
}

// A drawing in pieces: how the next one is read, the escape sequences so far, how many lines were drawn with no pen in hand, and from which byte on
// there was none.
#[derive(Clone, Copy)]
struct Watched {
    drawing: Drawing,
    mode: u8,
    escapes: Escapes,
    lost: u64,
    first: u64,
}

// A whole input: what is counted and refused, lines painted twice, escape sequences that are broken off, replies, line types with numbers, lines without a
// pen, whether its last instruction is open, and whether some of it could not be read: a flag and no Result, since all else is told in either case.
#[derive(Clone, Copy)]
pub struct Surveyed {
    pub tally: Tally,
    pub repeats: Repeats,
    pub refusals: Refusals,
    pub broken: u64,
    pub replies: u64,
    pub types: u64,
    pub lost: u64,
    pub first: u64,
    pub unended: bool,
    pub unread: bool,
}

#[tactic(auto, unfolding(crate::specs::Drawing::waits_of))]
fn waits(s: Segment) -> bool
    ensures { result ≡ S.waits_of s }
{
    matches!(s, Segment::PenUp | Segment::Line(_, _))
}

// A stroke as a line among those that were painted: its ends, whatever its pen.
#[tactic(auto, unfolding(crate::specs::Strokes::ends_of))]
fn ends_of(s: Stroke) -> Row
    ensures { result ≡ T.ends_of s }
{
    Row {
        a: 0,
        b: s.x0,
        c: s.y0,
        d: s.x1,
        e: s.y1,
    }
}

// What is drawn of a segment is looked for among the lines that were painted, and kept.
#[tactic(auto, unfolding(crate::specs::Strokes::rows_of, repeats::specs::Repeats::painted_all))]
fn traced(lines: &mut [i64], d: Drawn)
    ensures { lines.new ≡ painted_all lines.old (T.rows_of d) }
{
    if let Drawn::Stroke(s) = d {
        painted(lines, ends_of(s));
    }
}

// Draws and counts the segments that wait.
fn drawn_off(first: Machine, before: Tally, lines: &mut [i64]) -> Painted
    ensures value { (painted_by result ≡ S.drawn_off (waiting first.state.work) first.state before) × (waiting result.machine.state.work ≡ 0) }
    ensures lines_after { lines.new ≡ painted_all lines.old (T.strokes_at first.state) }
{
    let mut machine = first;
    let mut tally = before;
    // no for: what waits tells when it is drawn
    loop {
        let s = machine.segment();
        if !waits(s) {
            return Painted { machine, tally };
        }
        let w = machine.draw();
        let drawn = w.drawn;
        tally = counted(tally, s, drawn);
        traced(lines, drawn);
        machine = w.machine;
    }
}

// Fetches and counts the reply that waits, if one does.
#[tactic(auto, unfolding(crate::specs::Drawing::fetched_off, machine::specs::Calls::fetched_from))]
fn fetched_off(machine: Machine, before: u64) -> Replied
    ensures { replied_by result ≡ S.fetched_off machine.state before }
{
    let mut buffer = [0; REPLY];
    let f = machine.fetch(&mut buffer);
    if f.length == 0 {
        return Replied {
            machine: f.machine,
            replies: before,
        };
    }
    Replied {
        machine: f.machine,
        replies: sum(before, 1),
    }
}

// The number of a run's last byte. A byte that met a waiting reply was not taken, and is not refused: it comes again.
#[tactic(auto, unfolding(crate::specs::Drawing::judged_of, feeding::specs::DrawOff::untaken))]
fn judged(number: u8) -> u8
    ensures { result ≡ S.judged_of number }
{
    if number == BUSY {
        return 0;
    }
    number
}

// A byte is refused: it is noted with its name, and its place after so many bytes.
#[tactic(auto, unfolding(crate::specs::Drawing::refused_at, counting::specs::Refusals::noted_all))]
fn refused(
    refusals: Refusals,
    letters: Letters,
    nobody: Letters,
    before: u64,
    block: &[u8],
    at: usize,
    number: u8,
) -> Refusals
    ensures { result ≡ S.refused_at refusals letters nobody before block.now at number }
{
    let name = name_of(letters, nobody, block, at, number);
    let one = [sum(before, at as u64); 1];
    noted(refusals, number, name, &one)
}

// Room for the marks of a stretch.
fn records() -> [i64; NUMBERS]
    ensures { S.stretch_numbers ≡ length result }
{
    [0; NUMBERS]
}

// The places of refusals, from the records that plot stores, after so many bytes.
fn places(numbers: &[i64], count: usize, before: u64) -> [u64; STRETCH]
    requires { (count ≤ S.stretch) × (count * 5 ≤ length numbers.now) }
    ensures { take count result ≡ S.places_of before numbers.now count }
{
    let mut list = [0; STRETCH];
    for i in 0..count {
        list[i] = sum(before, size(numbers[i * 5 + 2]));
    }
    list
}

// The refusals of a stretch: no letter, nobody's name.
#[tactic(auto, unfolding(crate::specs::Drawing::unnamed_in))]
fn unnamed(
    refusals: Refusals,
    nobody: Letters,
    numbers: &[i64],
    count: usize,
    before: u64,
) -> Refusals
    requires { (count ≤ S.stretch) × (count * 5 ≤ length numbers.now) }
    ensures { result ≡ S.unnamed_in refusals nobody before numbers.now count }
{
    let list = places(numbers, count, before);
    noted(refusals, UNKNOWN, nobody, &list[..count])
}

// The drawing after a block.
fn ended(
    d: Drawing,
    block: &[u8],
    machine: Machine,
    tally: Tally,
    refusals: Refusals,
    replies: u64,
) -> Drawing
    ensures { drawing_by result ≡ S.ended_of (S.gone_to (drawing_by d) machine.state tally refusals replies) block.now }
{
    Drawing {
        machine,
        before: sum(d.before, block.len() as u64),
        letters: letters_before(d.letters, block, block.len()),
        tally,
        refusals,
        replies,
        ..d
    }
}

// A block: the machine runs up to a byte that leaves segments, which are drawn, or a reply, which is fetched, or that is refused. After that it is outside an
// instruction, and bytes without letters leave nothing but refusals.
fn block_of(d: Drawing, block: &[u8], lines: &mut [i64]) -> Drawing
    requires { occupied d.machine.state.work ≡ false }
    ensures value { (drawing_by result ≡ S.block_of (drawing_by d) block.now) × (occupied result.machine.state.work ≡ false) }
    ensures lines_after { lines.new ≡ painted_all lines.old (T.strokes_from d.machine.state block.now) }
{
    let mut space = records();
    let numbers: &mut [i64] = &mut space;
    let letters = d.letters;
    let nobody = d.nobody;
    let before = d.before;
    let mut machine = d.machine;
    let mut tally = d.tally;
    let mut refusals = d.refusals;
    let mut replies = d.replies;
    let mut at = 0;
    // a while: how far a run gets, the machine tells
    while at < block.len() {
        let r = machine.run(block, at);
        machine = r.machine;
        at = r.at;
        let number = judged(r.number);
        if number == 0 {
            let p = drawn_off(machine, tally, lines);
            tally = p.tally;
            let f = fetched_off(p.machine, replies);
            machine = f.machine;
            replies = f.replies;
            continue;
        }
        refusals = refused(refusals, letters, nobody, before, block, at, number);
        let n = letterless(block, at, STRETCH);
        if n < SHORT {
            continue;
        }
        let g = machine.plot(&block[..at + n], at, numbers);
        machine = g.machine;
        at = g.at;
        refusals = unnamed(refusals, nobody, numbers, g.stored, before);
    }
    ended(d, block, machine, tally, refusals, replies)
}

// The drawing with a pen in hand, and nothing counted yet.
fn with_pen(d: Drawing) -> Drawing
    requires { occupied d.machine.state.work ≡ false }
    ensures { drawing_by result ≡ S.with_pen (drawing_by d) }
{
    Drawing {
        machine: inked(d.machine),
        tally: nothing(),
        refusals: none(),
        replies: 0,
        ..d
    }
}

// What a piece would draw, where no pen is in hand.
#[tactic(auto, unfolding(crate::specs::Drawing::lost_in, hpgl::specs::Machine::look_at, inking::specs::Inked::inked_state))]
fn lost_in(d: Drawing, piece: &[u8]) -> u64
    requires { occupied d.machine.state.work ≡ false }
    ensures { result ≡ S.lost_in (drawing_by d) piece.now }
{
    let seen = d.machine.look();
    if seen.pen == 0 {
        // a list without room: what is not painted is not painted twice
        let mut none = [0; 1];
        let drawn = block_of(with_pen(d), piece, &mut none);
        return segments(drawn.tally);
    }
    0
}

// It stands beside the count of what is lost and is no Option: fit goes by the count, which says whether there is one.
// From where on there was no pen: as it was, or from this piece on where the first line is lost.
#[tactic(auto, unfolding(crate::specs::Drawing::first_of))]
fn first_of(lost: u64, first: u64, more: u64, place: u64) -> u64
    ensures { result ≡ S.first_of lost first more place }
{
    if lost > 0 {
        return first;
    }
    if more > 0 {
        return place;
    }
    first
}

// The name of a byte that belongs to none: that of an escape sequence, or nobody's.
#[tactic(auto, unfolding(crate::specs::Drawing::byte_name))]
fn byte_name(escape: u8, piece: &[u8]) -> Letters
    ensures { result ≡ S.byte_name escape piece.now }
{
    match piece.first() {
        Some(&byte) if belongs(escape, byte) => escape_letters(),
        _ => no_letters(),
    }
}

// The drawing at the beginning of a piece.
fn entered(d: Drawing, nobody: Letters) -> Drawing
    ensures { drawing_by result ≡ S.entered_of (drawing_by d) nobody }
{
    Drawing { nobody, ..d }
}

#[tactic(auto, unfolding(crate::specs::Drawing::last_of))]
fn last(piece: &[u8]) -> u8
    ensures { result ≡ S.last_of piece.now }
{
    piece.last().copied().unwrap_or(0)
}

// A piece: within it no other pen is taken, and all bytes belong to an escape sequence or none does.
#[tactic(auto, unfolding(crate::specs::Drawing::piece_done))]
fn piece_of(w: Watched, piece: &[u8], lines: &mut [i64]) -> Watched
    requires { occupied w.drawing.machine.state.work ≡ false }
    ensures value { (watched_by result ≡ S.piece_done (watched_by w) piece.now) × (occupied result.drawing.machine.state.work ≡ false) }
    ensures lines_after { lines.new ≡ painted_all lines.old (T.strokes_from w.drawing.machine.state piece.now) }
{
    let escapes = w.escapes;
    let d = entered(w.drawing, byte_name(escapes.state, piece));
    let place = sum(d.before, 1);
    let more = lost_in(d, piece);
    let next = block_of(d, piece, lines);
    Watched {
        drawing: next,
        mode: mode_after(w.mode, last(piece)),
        escapes: escapes_in(escapes, piece),
        lost: sum(w.lost, more),
        first: first_of(w.lost, w.first, more, place),
    }
}

// A block, piece by piece.
fn pieces(w: Watched, block: &[u8], lines: &mut [i64]) -> Watched
    requires { occupied w.drawing.machine.state.work ≡ false }
    ensures value { (watched_by result ≡ S.watched_of (watched_by w) block.now) × (occupied result.drawing.machine.state.work ≡ false) }
    ensures lines_after { lines.new ≡ painted_all lines.old (T.strokes_from w.drawing.machine.state block.now) }
{
    let mut far = w;
    let mut at = 0;
    // no piece is empty: there are no more of them than bytes
    for turn in 0..block.len() {
        if block.len() <= at {
            return far;
        }
        let n = piece(far.mode, far.escapes.state, block, at);
        far = piece_of(far, &block[at..at + n], lines);
        at += n;
    }
    far
}

// Whether the last instruction is open: with one more semicolon something would be painted or refused.
#[tactic(auto, unfolding(crate::specs::Drawing::open_end, machine::specs::Calls::taken_of))]
fn open_end(machine: Machine) -> bool
    ensures { result ≡ S.open_end machine.state }
{
    let t = machine.take(b';');
    if t.number == 0 {
        return waits(t.machine.segment());
    }
    true
}

// What there is to say of a drawing that has been read, or could not be.
#[tactic(auto, unfolding(crate::specs::Drawing::finished_of))]
fn finished(w: Watched, types: Types, unread: bool, lines: &[i64]) -> Surveyed
    ensures { result ≡ S.finished_of (watched_by w) types unread lines.now }
{
    let d = w.drawing;
    Surveyed {
        tally: d.tally,
        repeats: told(lines),
        refusals: d.refusals,
        broken: broken_at_end(w.escapes),
        replies: d.replies,
        types: types.count,
        lost: w.lost,
        first: w.first,
        unended: open_end(d.machine),
        unread,
    }
}

// Nothing is read yet.
fn begun(machine: Machine) -> Watched
    ensures { watched_by result ≡ S.begun_of machine.state }
{
    Watched {
        drawing: Drawing {
            machine,
            before: 0,
            letters: no_letters(),
            nobody: no_letters(),
            tally: nothing(),
            refusals: none(),
            replies: 0,
        },
        mode: 0,
        escapes: no_escapes(),
        lost: 0,
        first: 0,
    }
}

// The input to its end, or to a read that fails, which is told at once, with the name of the input.
pub fn survey(
    rt: &HostRuntime,
    machine: Machine,
    input: &[u8],
    source: &mut Stream<Source>,
) -> Surveyed
    requires { occupied machine.state.work ≡ false }
{
    let mut block = io::large_buffer();
    let mut lines = [0; ROOM];
    let mut types = no_types();
    let mut w = begun(machine);
    for _ in 0..TURNS {
        let got = read(source, &mut block);
        if !got.good {
            write_all(&mut Stream::new(rt.stderr()), b"survey: ");
            tell(rt.stderr(), input, source.error);
            return finished(w, types, true, &lines);
        }
        let n = got.count;
        if n == 0 {
            return finished(w, types, false, &lines);
        }
        types = types_in(types, &block[..n]);
        w = pieces(w, &block[..n], &mut lines);
    }
    finished(w, types, true, &lines)
}
