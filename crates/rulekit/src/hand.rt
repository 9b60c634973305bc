// The parts of a core that a loop over bytes keeps apart: its settings, the polygon, and a hand, which is the rest of the carriage.
ghost use Rattle.std.specs.Prelude.{◌≡◌};
ghost use Rattle.hpgl.specs.Replies.{remembered};
ghost use Rattle.rulekit.specs.Hand.{hand_of, core_of, noted_hand};

use clip::Point;
use hpgl::{Carriage, Core, Edge, Memory, Pen, Polygon, Position, Segment, Settings};

// A carriage without its polygon, which is large and seldom changes.
#[derive(Clone, Copy)]
pub struct Hand {
    pub position: Position,
    pub pen: Pen,
    pub relative: bool,
    pub memory: Memory,
}

// What a pair outside polygon mode does: the new hand and the location where it is, the segment to draw, and 01's number (0 for none).
#[derive(Clone, Copy)]
pub struct Shifted {
    pub hand: Hand,
    pub here: Point,
    pub segment: Segment,
    pub number: u8,
}

// What a pair in polygon mode does: the new hand and the location where it is, the edge that ends there, the bytes of the point, and 01's number
// (0 for none).
#[derive(Clone, Copy)]
pub struct Pointed {
    pub hand: Hand,
    pub here: Point,
    pub edge: Edge,
    pub cost: u16,
    pub number: u8,
}

// Not `From`: the polygon is left out.
pub fn hand_of(k: Carriage) -> Hand
    ensures { result ≡ hand_of k }
{
    Hand {
        position: k.position,
        pen: k.pen,
        relative: k.relative,
        memory: k.memory,
    }
}

// The parts put together again.
pub fn core_of(settings: Settings, h: Hand, polygon: Polygon) -> Core
    ensures { result ≡ core_of settings h polygon }
{
    Core {
        settings,
        carriage: Carriage {
            position: h.position,
            pen: h.pen,
            relative: h.relative,
            polygon,
            memory: h.memory,
        },
    }
}

// Whether a number is remembered for OE.
#[tactic(auto, unfolding(hpgl::specs::Replies::remembered))]
fn remembered(number: u8) -> bool
    ensures { result ≡ remembered number }
{
    matches!(number, 1 | 2 | 3 | 6 | 7)
}

// A hand that remembers the number of a take.
#[tactic(auto, unfolding(crate::specs::Hand::noted_hand, hpgl::specs::Replies::remembering))]
pub fn noted(h: Hand, number: u8) -> Hand
    ensures { result ≡ noted_hand number h }
{
    if remembered(number) {
        Hand {
            memory: Memory { refusal: number },
            ..h
        }
    } else {
        h
    }
}
