// Whether a call may go on with the lists that it was handed: one that is too short is answered with 41, then one that is no machine with 40.
// specs/Ready.antt says which lists are a machine, specs/ReadyLaws.antt that each list which the calls leave is one.
#![tactic(auto)]

ghost use Rattle.std.specs.Prelude.{◌≡◌, length};
ghost use Rattle.readiness.specs.Ready.{list_numbers, machine_stands, ready_of};

use rows::row_at;
use seal::{header_sound, sum_stands};
use soundness::sound;

// The numbers in a machine's list, and in its header.
pub const LIST: usize = 650;

pub const HEADER: usize = 5;

// The list is no machine; a list is too short, or a machine's has another length.
const NO_MACHINE: u8 = 40;

pub const TOO_SHORT: u8 = 41;

// Whether a list is a machine. The sum comes last: that of a sound list fits its width.
fn stands(state: &[i64]) -> bool
    requires { length state.now ≡ list_numbers }
    ensures { result ≡ machine_stands state.now }
{
    header_sound(row_at(state, 0)) && sound(&state[HEADER..]) && sum_stands(state)
}

// Whether a call may go on: 0, or the number that it is refused with. A number and no enum: each call answers it to C as it is.
pub fn ready(state: &[i64], needed: usize, lent: usize) -> u8
    ensures { result ≡ ready_of state.now needed lent }
{
    if lent < needed {
        return TOO_SHORT;
    }
    if state.len() == LIST {
        if stands(state) {
            return 0;
        }
        return NO_MACHINE;
    }
    TOO_SHORT
}
