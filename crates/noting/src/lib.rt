// What preview notes of a drawing: its strokes and their lengths by pen with the dots among them, and its refusals in groups, as survey has them;
// and whether the carriage is astray. specs/Inks.antt and specs/Refusals.antt have the definitions.
#![tactic(auto)]

ghost use Rattle.std.specs.Prelude.{◌≡◌};
ghost use Rattle.noting.specs.Inks.{no_inks, dot_count, inked_of, inks_of};
ghost use Rattle.noting.specs.Refusals.{refuses, refused_of};

use console::sum;
use counting::names::{Letters, name_of, no_letters};
use counting::refusals::{Refusals, noted};
use counting::tally::for_pen;
use drive::ends_equal;
use hpgl::Stroke;
use measure::length;
use rulekit::numbers::{BUSY, LIST_FULL};

pub mod astray;

// Dots; and by pen, strokes and their lengths in tenths of a unit. Two lists and no list of pairs: survey's definitions, `for_pen` and `total`, are of one list of numbers.
#[derive(Clone, Copy)]
pub struct Inks {
    pub dots: u64,
    pub strokes: [u64; 9],
    pub lengths: [u64; 9],
}

pub fn no_inks() -> Inks
    ensures { result ≡ no_inks }
{
    Inks {
        dots: 0,
        strokes: [0; 9],
        lengths: [0; 9],
    }
}

// One for a dot.
#[tactic(auto, unfolding(crate::specs::Inks::dot_count))]
fn dot_count(s: Stroke) -> u64
    ensures { result ≡ dot_count s }
{
    u64::from(ends_equal(s))
}

// One stroke more.
fn inked(i: Inks, s: Stroke) -> Inks
    ensures { result ≡ inked_of i s }
{
    Inks {
        dots: sum(i.dots, dot_count(s)),
        strokes: for_pen(i.strokes, s.pen, 1),
        lengths: for_pen(i.lengths, s.pen, length(s.x0, s.y0, s.x1, s.y1)),
    }
}

// These strokes more.
pub fn inks_of(i: Inks, strokes: &[Stroke]) -> Inks
    ensures { result ≡ inks_of i strokes.now }
{
    let mut inks = i;
    for s in strokes {
        inks = inked(inks, *s);
    }
    inks
}

// Whether a feed's number is that of a refused byte: not where the bytes or the list ended, or a reply waits.
#[tactic(auto, unfolding(crate::specs::Refusals::refuses, feeding::specs::DrawOff::untaken))]
pub fn is_refusal(number: u8) -> bool
    ensures { result ≡ refuses number }
{
    number != 0 && number != LIST_FULL && number != BUSY
}

// What a feed's number adds, on the byte before a place of a block; l is for the letters before the block, `place` counts the bytes of all.
#[tactic(auto, unfolding(crate::specs::Refusals::refused_of))]
pub fn refused(r: Refusals, l: Letters, block: &[u8], at: usize, number: u8, place: u64) -> Refusals
    ensures { result ≡ refused_of r l block.now at number place }
{
    if is_refusal(number) {
        let name = name_of(l, no_letters(), block, at, number);
        return noted(r, number, name, &[place]);
    }
    r
}
