// The state of the machine that document 01 describes, as types alone. specs/ says what each call does to it and proves condition 3;
// the crate machine carries it out.
#![tactic(auto)]

use clip::{Point, Rect};
use plane::circle::{Centre, Way};
use plane::position::ExactPosition;
use reader::Reader;

// The bytes of the longest reply: `most_reply` of specs/Numbers.antt.
pub const MOST_REPLY: usize = 37;

// The exact position: base and offset on each axis.
#[derive(Clone, Copy)]
pub struct Position {
    pub x: ExactPosition,
    pub y: ExactPosition,
}

// The numbers of SC for one axis, in ten-thousandths.
#[derive(Clone, Copy)]
pub struct Range {
    pub min: i64,
    pub max: i64,
}

// The scale of SC. Off, the ranges mean nothing; they stand beside a flag and in no Option, since a machine that is written out keeps them (`saved_of`, `saved-back`).
#[derive(Clone, Copy)]
pub struct Scale {
    pub on: bool,
    pub x: Range,
    pub y: Range,
}

// The window of IW: a box of locations, not turned. Where none is set the box means nothing, and is kept as the ranges of a scale are.
#[derive(Clone, Copy)]
pub struct Window {
    pub set: bool,
    pub area: Rect,
}

// What belongs to the sheet, whoever paints on it: hard limits, P1, P2, scale, turn (its place in the table of turns, as a machine that is written out has it), window.
#[derive(Clone, Copy)]
pub struct Settings {
    pub hard: Rect,
    pub p1: Point,
    pub p2: Point,
    pub scale: Scale,
    pub turn: usize,
    pub window: Window,
}

// The pen: its number, down or up, and whether the PU or PD being read changed that and has carried out no pair yet.
#[derive(Clone, Copy)]
pub struct Pen {
    pub number: u8,
    pub down: bool,
    pub changed: bool,
}

// What PM0 saved for PM2.
#[derive(Clone, Copy)]
pub struct Saved {
    pub position: Position,
    pub relative: bool,
    pub down: bool,
}

// The polygon as it counts: whether polygon mode is on, its bytes, how many edges the store holds, whether the subpolygon has no point yet,
// and its first point, which is kept where there is none as well, in a list of numbers too.
#[derive(Clone, Copy)]
pub struct Polygon {
    pub mode: bool,
    pub bytes: u16,
    pub edges: u8,
    pub empty: bool,
    pub first: Position,
    pub saved: Saved,
}

// What a carriage remembers beside them: the number that OE tells, 0 for none.
#[derive(Clone, Copy)]
pub struct Memory {
    pub refusal: u8,
}

// What belongs to the carriage: position, pen, relative or absolute mode, polygon, memory.
#[derive(Clone, Copy)]
pub struct Carriage {
    pub position: Position,
    pub pen: Pen,
    pub relative: bool,
    pub polygon: Polygon,
    pub memory: Memory,
}

// Everything that decides anything.
#[derive(Clone, Copy)]
pub struct Core {
    pub settings: Settings,
    pub carriage: Carriage,
}

// An edge of the polygon: the locations of its ends, not turned, and whether the second was reached pen down.
#[derive(Clone, Copy)]
pub struct Edge {
    pub from: Point,
    pub to: Point,
    pub down: bool,
}

// A circle: its centre split on each axis, the way from the centre to vertex zero, the chord angle in tenths of a degree; the location of
// vertex zero, and how far it goes round, in tenths of a degree.
#[derive(Clone, Copy)]
pub struct Circle {
    pub x: Centre,
    pub y: Centre,
    pub radius: Way,
    pub angle: u16,
    pub start: Point,
    pub sweep: i64,
}

// What OA, OP, OW, OH or OE answers: so many numbers, of these four, as they were when it was carried out. Of no numbers it is no reply. Four fields and no list, for there
// is no heap, and a list of numbers has them each at its place.
#[derive(Clone, Copy)]
pub struct Reply {
    pub count: u8,
    pub first: i64,
    pub second: i64,
    pub third: i64,
    pub fourth: i64,
}

// What an instruction hands to the store and to the waiting work.
#[derive(Clone, Copy)]
pub enum Action {
    Keep,
    // one move is drawn, between two page points
    Line(Point, Point),
    // the chords of a circle are drawn
    Chords(Circle),
    // the store gets one more edge
    Join(Edge),
    // the stored edges are drawn
    Outline,
    // the store gets the edges of the rectangle between two opposite corners, and they are drawn or not
    Rectangle(Point, Point, bool),
    // a reply waits
    Answer(Reply),
}

// What an event does: the new core, the action, and 01's number (0 for none).
#[derive(Clone, Copy)]
pub struct Acted {
    pub core: Core,
    pub action: Action,
    pub number: u8,
}

// The edges that fit into a polygon: most_edges of specs/Numbers.antt.
pub const MOST_EDGES: usize = 112;

// The edges that EP draws: as many as the polygon counts.
#[derive(Clone, Copy)]
pub struct Store {
    pub edges: [Edge; MOST_EDGES],
}

// The segments that wait, all from one byte: none; one move, between two page points; the chords of a circle, or the stored edges, from one
// on, with how many are left. Or a reply waits: never both, for no byte is taken while anything does.
#[derive(Clone, Copy)]
pub enum Work {
    Nothing,
    Line(Point, Point),
    Chords(Circle, u16, u16),
    Edges(u8, u8),
    Answer(Reply),
}

// The whole machine.
#[derive(Clone, Copy)]
pub struct State {
    pub reader: Reader,
    pub core: Core,
    pub store: Store,
    pub work: Work,
}

// A stroke: pen and ends, on the page.
#[derive(Clone, Copy)]
pub struct Stroke {
    pub pen: u8,
    pub x0: i64,
    pub y0: i64,
    pub x1: i64,
    pub y1: i64,
}

// What waits first, before it is clipped: nothing; an edge whose second end was reached pen up; a line between two page points.
#[derive(Clone, Copy)]
pub enum Segment {
    Nothing,
    PenUp,
    Line(Point, Point),
}

// What draw answers.
#[derive(Clone, Copy)]
pub enum Drawn {
    Idle,
    Hidden,
    Stroke(Stroke),
}

// What look answers.
#[derive(Clone, Copy)]
pub struct Look {
    pub location: Point,
    pub pen: u8,
    pub down: bool,
    pub bytes: u16,
}
