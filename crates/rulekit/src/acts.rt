// How an instruction answers, and the pair that its first two numbers are.
ghost use Rattle.std.specs.Prelude.{◌≡◌};
ghost use Rattle.hpgl.specs.Rules as R;

use hpgl::{Acted, Action, Core};
use reader::{Coordinates, Numbers};

// Carried out.
#[tactic(auto, unfolding(hpgl::specs::Rules::done))]
pub fn done(c: Core, a: Action) -> Acted
    ensures { result ≡ R.done c a }
{
    Acted {
        core: c,
        action: a,
        number: 0,
    }
}

// Refused with a number: settings, position and polygon are left.
#[tactic(auto, unfolding(hpgl::specs::Rules::refuse))]
pub fn refuse(c: Core, number: u8) -> Acted
    ensures { result ≡ R.refuse c number }
{
    Acted {
        core: c,
        action: Action::Keep,
        number,
    }
}

// The first two of an instruction's numbers, as a pair.
pub fn first_two(n: Numbers) -> Coordinates
    ensures { result ≡ R.first_two n }
{
    Coordinates {
        x: n.first,
        y: n.second,
    }
}
