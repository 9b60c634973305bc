// Whether a list of numbers is a machine: each row is tested, so that a program may hand in any list.
// The crate wellformed says what is tested (Sound.antt), and that just the lists pass that save writes of a machine (SoundLaws.antt).
// Tests of rows that look alike stay functions of their own, and take their rows one by one: so has Sound.antt a definition for each.
#![tactic(auto)]

ghost use Rattle.std.specs.Prelude.{◌≡◌, length};
ghost use Rattle.hpgl.specs.Valid.{ValidSettings};
ghost use Rattle.saved.specs.Places.{limits_place, corners_place, scale_place, window_place, position_place, pen_place, polygon_place, first_place, saved_place, memory_place, work_place, across_place, along_place, start_place, edges_place};
ghost use Rattle.saved.specs.Saved.{state_numbers, settings_at};
ghost use Rattle.rows.specs.Rows.{row_at};
ghost use Rattle.wellformed.specs.Sound as S;

mod carriage;
mod instruction;
mod places;
mod sheet;
mod tests;
mod work;

use carriage::carriage_sound;
use hpgl::MOST_EDGES;
use instruction::{known_sound, reader_sound};
use rows::row_at;
use saving::places::{
    ACROSS, ALONG, CORNERS, EDGES, FIRST, LIMITS, MEMORY, PEN, POLYGON, POSITION, SAVED, SCALE,
    START, WINDOW, WORK,
};
use saving::sheet::settings_at;
use sheet::{box_sound, settings_sound};
use work::{inked_sound, work_sound};

const ROW: usize = 5;

fn reader_here(numbers: &[i64]) -> bool
    requires { length numbers.now ≡ state_numbers }
    ensures { result ≡ S.reader_sound (row_at numbers.now 0) (row_at numbers.now 5) (row_at numbers.now 10) }
{
    reader_sound(row_at(numbers, 0), row_at(numbers, 5), row_at(numbers, 10))
}

fn settings_here(numbers: &[i64]) -> bool
    requires { length numbers.now ≡ state_numbers }
    ensures { result ≡ S.settings_sound (row_at numbers.now limits_place) (row_at numbers.now corners_place) (row_at numbers.now scale_place) (row_at numbers.now window_place) }
{
    settings_sound(
        row_at(numbers, LIMITS),
        row_at(numbers, CORNERS),
        row_at(numbers, SCALE),
        row_at(numbers, WINDOW),
    )
}

fn carriage_here(numbers: &[i64]) -> bool
    requires { (length numbers.now ≡ state_numbers) × ValidSettings (settings_at numbers.now) }
    ensures { result ≡ S.carriage_sound (settings_at numbers.now) (row_at numbers.now position_place) (row_at numbers.now pen_place) (row_at numbers.now polygon_place) (row_at numbers.now first_place) (row_at numbers.now saved_place) (row_at numbers.now memory_place) }
{
    carriage_sound(
        settings_at(numbers),
        row_at(numbers, POSITION),
        row_at(numbers, PEN),
        row_at(numbers, POLYGON),
        row_at(numbers, FIRST),
        row_at(numbers, SAVED),
        row_at(numbers, MEMORY),
    )
}

fn known_here(numbers: &[i64]) -> bool
    requires { length numbers.now ≡ state_numbers }
    ensures { result ≡ S.known_sound (row_at numbers.now 0) (row_at numbers.now polygon_place) }
{
    known_sound(row_at(numbers, 0), row_at(numbers, POLYGON))
}

fn work_here(numbers: &[i64]) -> bool
    requires { length numbers.now ≡ state_numbers }
    ensures { result ≡ S.work_sound (row_at numbers.now work_place) (row_at numbers.now across_place) (row_at numbers.now along_place) (row_at numbers.now start_place) }
{
    work_sound(
        row_at(numbers, WORK),
        row_at(numbers, ACROSS),
        row_at(numbers, ALONG),
        row_at(numbers, START),
    )
}

fn inked_here(numbers: &[i64]) -> bool
    requires { length numbers.now ≡ state_numbers }
    ensures { result ≡ S.inked_sound (row_at numbers.now pen_place) (row_at numbers.now work_place) }
{
    inked_sound(row_at(numbers, PEN), row_at(numbers, WORK))
}

fn edges_here(numbers: &[i64]) -> bool
    requires { length numbers.now ≡ state_numbers }
    ensures { result ≡ S.edges_sound numbers.now edges_place 112 }
{
    for i in 0..MOST_EDGES {
        if !box_sound(row_at(numbers, EDGES + i * ROW)) {
            return false;
        }
    }
    true
}

// Whether a list of as many numbers as a machine has is one.
pub fn sound(numbers: &[i64]) -> bool
    requires { length numbers.now ≡ state_numbers }
    ensures { result ≡ S.sound_of numbers.now }
{
    if !reader_here(numbers) {
        return false;
    }
    if !settings_here(numbers) {
        return false;
    }
    if !carriage_here(numbers) {
        return false;
    }
    if !known_here(numbers) {
        return false;
    }
    if !work_here(numbers) {
        return false;
    }
    if !inked_here(numbers) {
        return false;
    }
    edges_here(numbers)
}
