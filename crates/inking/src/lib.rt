// A machine with a pen in hand: what it draws where the machine itself draws nothing is what pen 0 loses.
#![tactic(auto)]

ghost use Rattle.std.specs.Prelude.{◌≡◌, length};
ghost use Rattle.hpgl.specs.Machine.{waiting};
ghost use Rattle.saved.specs.Saved.{state_numbers};
ghost use Rattle.inking.specs.Inked.{inked_state};

use machine::Machine;

// A saved machine has so many numbers, and at this place the pen's.
const NUMBERS: usize = 645;

const PEN: usize = 40;

// Room for a saved machine.
fn room() -> [i64; NUMBERS]
    ensures { length result ≡ state_numbers }
{
    [0; NUMBERS]
}

// The same machine with pen 1. Its fields are the machine's own, so that it is saved and loaded.
pub fn inked(machine: Machine) -> Machine
    requires { waiting machine.state.work ≡ 0 }
    ensures { result.state ≡ inked_state machine.state }
{
    let mut space = room();
    let numbers: &mut [i64] = &mut space;
    machine.save(numbers);
    numbers[PEN] = 1;
    Machine::load(numbers)
}
