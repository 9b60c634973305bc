// The limits in force.
ghost use Rattle.std.specs.Prelude.{◌≡◌, ◌<◌};
ghost use Rattle.clip.specs.Reach.{SmallRect};
ghost use Rattle.turns.specs.Turn.{turn_count};
ghost use Rattle.turns.specs.Limits.{intersection_of, limits_of};

use super::turn::{greater, lesser, turned_box};
use clip::Rect;

// What is in both boxes. It may be empty: then left is above right, or bottom above top.
pub fn intersection(a: Rect, b: Rect) -> Rect
    ensures { result ≡ intersection_of a b }
{
    Rect {
        left: greater(a.left, b.left),
        bottom: greater(a.bottom, b.bottom),
        right: lesser(a.right, b.right),
        top: lesser(a.top, b.top),
    }
}

// The hard limits and, if set, the window, which is kept unturned.
// A flag and a box, and no Option: the list of numbers that C keeps has the box of a window that is not set too (Saved.antt).
pub fn limits(hard: Rect, windowed: bool, window: Rect, turn: usize) -> Rect
    requires { SmallRect window × (turn < turn_count) }
    ensures { result ≡ limits_of hard windowed window turn }
{
    if windowed {
        return intersection(hard, turned_box(window, turn));
    }
    hard
}
