// Whether a drawing is fit to paint.
ghost use Rattle.std.specs.Prelude.{◌≡◌};
ghost use Rattle.counting.specs.Verdict as S;

use super::refusals::{Refusals, harm};
use super::tally::Tally;
use clip::Rect;
use console::sum;
use measure::narrow;

// Segments of which the limits leave a part or nothing.
pub fn cut_off(t: Tally) -> u64
    ensures { result ≡ S.cut_off t }
{
    sum(t.clipped, t.hidden)
}

// Every segment, by what the limits leave of it.
pub fn segments(t: Tally) -> u64
    ensures { result ≡ S.segments_of t }
{
    sum(t.whole, cut_off(t))
}

// How many refusals change the drawing. An escape sequence that is broken off is none, and its refusals are not harmless: one counts.
#[tactic(auto, unfolding(crate::specs::Verdict::harms_of))]
pub fn harms(r: Refusals, broken: u64) -> u64
    ensures { result ≡ S.harms_of r broken }
{
    harm(r.groups, sum(r.others, broken))
}

// What it goes by is seven parameters and no struct: fit_of, fit-says and says-fit take them so.
// Something is painted, nothing is cut off, no refusal changes the drawing, no escape sequence is broken off, no line has another type or no pen, and it was
// read to its end.
#[tactic(auto, unfolding(crate::specs::Verdict::fit_of))]
pub fn fit(
    t: Tally,
    r: Refusals,
    broken: u64,
    types: u64,
    lost: u64,
    unended: bool,
    unread: bool,
) -> bool
    ensures { result ≡ S.fit_of t r broken types lost unended unread }
{
    harms(r, broken) == 0
        && types == 0
        && lost == 0
        && cut_off(t) == 0
        && !unended
        && !unread
        && t.paint.end.is_some()
}

// Whether a box is less than nine tenths as wide as another, and as high.
fn narrower(r: Rect, sheet: Rect) -> bool
    ensures { result ≡ S.narrower_of r sheet }
{
    narrow(r.left, r.right, sheet.left, sheet.right)
}

fn lower(r: Rect, sheet: Rect) -> bool
    ensures { result ≡ S.lower_of r sheet }
{
    narrow(r.bottom, r.top, sheet.bottom, sheet.top)
}

// Whether what is painted leaves more than a tenth of the sheet free, across and along: it may have been written at another scale.
#[tactic(auto, unfolding(crate::specs::Verdict::little_of))]
pub fn little(e: Option<Rect>, sheet: Rect) -> bool
    ensures { result ≡ S.little_of e sheet }
{
    match e {
        Some(area) => narrower(area, sheet) && lower(area, sheet),
        None => false,
    }
}

// The sum of a list by pens.
pub fn total(list: [u64; 9]) -> u64
    ensures { result ≡ S.total_of list }
{
    let mut n = 0;
    for i in (0..9).rev() {
        n = sum(list[i], n);
    }
    n
}
