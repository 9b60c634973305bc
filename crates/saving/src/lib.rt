// The machine's state written out as numbers, and read back. A caller in another language keeps it between two calls as 129 rows of five.
// The crate saved says which number stands where (Saved.antt), and proves that what is written is read back (SavedLaws.antt).
// Functions and no From: a row is of the crate rows, and what it is made of is of hpgl and reader; an impl would have to stand in one of those.
// Rows that look alike stay functions of their own: `saved` has a definition for each, which the contract of each is.
#![tactic(auto)]

ghost use Rattle.std.specs.Prelude.{◌≡◌, length};
ghost use Rattle.hpgl.specs.Numbers.{most_edges};
ghost use Rattle.saved.specs.Saved.{state_numbers, saved_of, loaded_of};

mod carriage;
mod edges;
mod instruction;
pub mod places;
pub mod sheet;
pub mod work;

use carriage::{carriage_at, put_carriage};
use edges::{edges_at, put_edges};
use hpgl::{Core, State};
use instruction::{put_reader, reader_at};
use sheet::{put_settings, settings_at};
use work::{put_work, work_at};

// Writes a state over a list.
pub fn save(m: State, numbers: &mut [i64])
    requires { (length m.store.edges ≡ most_edges) × (length numbers.old ≡ state_numbers) }
    ensures { numbers.new ≡ saved_of m }
{
    put_reader(m.reader, numbers);
    put_settings(m.core.settings, numbers);
    put_carriage(m.core.carriage, numbers);
    put_work(m.work, numbers);
    put_edges(m.store, numbers);
}

// The state that a list holds.
pub fn load(numbers: &[i64]) -> State
    requires { length numbers.now ≡ state_numbers }
    ensures { result ≡ loaded_of numbers.now }
{
    State {
        reader: reader_at(numbers),
        core: Core {
            settings: settings_at(numbers),
            carriage: carriage_at(numbers),
        },
        store: edges_at(numbers),
        work: work_at(numbers),
    }
}
