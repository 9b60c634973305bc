// Whether the carriage stands where the drawing has it: not after a refused move, up to the next move with the pen up that is accepted. specs/Astray.antt has
// the definitions.
ghost use Rattle.std.specs.Prelude.{◌≡◌, ◌≤◌, ◌<◌, length};
ghost use Rattle.noting.specs.Astray as S;

use super::is_refusal;
use clip::Point;
use counting::names::{Letters, letterless, name_of, no_letters};
use hpgl::Look;
use words::{harmless, refused_kind};

// Whether an instruction of this kind would have moved the carriage. A kind is a letter and no enum: `moves_of`, `kind_at` and `changes_of` are of the letters of
// words/specs/Names.antt.
#[tactic(auto, unfolding(crate::specs::Astray::moves_of))]
pub fn moves(kind: u8) -> bool
    ensures { result ≡ S.moves_of kind }
{
    matches!(kind, b'm' | b'a' | b'e')
}

// The kind of what is refused with a feed's number, on the byte before a place of a block; 0 for no refusal. l is for the letters before the block.
#[tactic(auto, unfolding(crate::specs::Astray::kind_at))]
pub fn kind_at(l: Letters, block: &[u8], at: usize, number: u8) -> u8
    ensures { result ≡ S.kind_at l block.now at number }
{
    if is_refusal(number) {
        let name = name_of(l, no_letters(), block, at, number);
        return refused_kind(number, name.first, name.second);
    }
    0
}

// Whether a refusal of this kind changes the drawing, whatever else is said of it.
#[tactic(auto, unfolding(crate::specs::Astray::changes_of))]
pub fn changes(kind: u8) -> bool
    ensures { result ≡ S.changes_of kind }
{
    kind != 0 && kind != b'b' && !harmless(kind)
}

#[tactic(auto, using(exact::specs::Fit::signed64), unfolding(crate::specs::Astray::same_point))]
fn same_point(a: Point, b: Point) -> bool
    ensures { result ≡ S.same_point a b }
{
    a.x == b.x && a.y == b.y
}

// Whether a move with the pen up was accepted between two looks.
#[tactic(auto, unfolding(crate::specs::Astray::set_right))]
fn set_right(before: Look, after: Look) -> bool
    ensures { result ≡ S.set_right before after }
{
    !after.down && !same_point(before.location, after.location)
}

// Whether the carriage is astray after a feed: it was, or a refused move ended the feed.
#[tactic(auto, unfolding(crate::specs::Astray::astray_of))]
pub fn astray(was: bool, strays: bool, before: Look, after: Look) -> bool
    ensures { result ≡ S.astray_of was strays before after }
{
    strays || (was && !set_right(before, after))
}

// The place after the next letter, of which n bytes stand before it; or the end.
#[tactic(auto, unfolding(crate::specs::Astray::to_letter))]
fn to_letter(block: &[u8], at: usize, n: usize) -> usize
    requires { at < length block.now }
    ensures { result ≡ S.to_letter block.now at n }
{
    if n < block.len() - at {
        return at + n + 1;
    }
    block.len()
}

// Where the next feed has to stop.
#[tactic(auto, unfolding(crate::specs::Astray::part_end))]
pub fn part_end(block: &[u8], at: usize, astray: bool) -> usize
    ensures { result ≡ S.part_end block.now at astray }
{
    if astray && at < block.len() {
        return to_letter(block, at, letterless(block, at, block.len() - at));
    }
    block.len()
}
