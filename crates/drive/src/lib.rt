// Drive moves: a stroke in plotter units becomes moves in millimetres. specs/Drive.antt says which, proofs/Laws.antt that nothing is lost.
#![tactic(auto)]

ghost use Rattle.std.specs.Prelude.{◌≡◌, true, pos, ◌*ℤ◌, ◌≤◌};
ghost use Rattle.exact.specs.Int16 as I;
ghost use Rattle.drive.specs.Drive.{last_code, pitch_of, ends_inside_of, ends_equal_of, number_of, spot_of, answer_of, f32_of, place_of, Gives};

use exact::int16;
use hpgl::Stroke;

// Pitch codes are 0 to this one.
const LAST_CODE: u8 = 3;

// Refused: a pitch code that is none, or an end of the stroke that is out of range.
#[derive(Clone, Copy)]
pub enum Refusal {
    Pitch,
    End,
}

// The number of a refusal.
impl From<Refusal> for u8 {
    ghost from_gives = { λ why n. n ≡ number_of why };

    fn from(why: Refusal) -> u8 {
        match why {
            Refusal::Pitch => 11,
            Refusal::End => 12,
        }
    }
}

// Two lengths in millimetres.
#[derive(Clone, Copy)]
pub struct Place {
    pub x: f32,
    pub y: f32,
}

// Travel holds its start, paint its end, a dot its place.
#[derive(Clone, Copy)]
pub enum Move {
    Travel(Place),
    Paint(Place),
    Dot(Place),
}

// A travel and a paint move, or one dot.
#[derive(Clone, Copy)]
pub enum Moves {
    Two(Move, Move),
    One(Move),
}

// The pitch of a code, in millimetres a unit. A code and no enum: drive takes any byte, and refuses those past the last.
fn pitch_of(code: u8) -> f32
    requires { code ≤ last_code }
    ensures { result ≡ f32_of (pos (pitch_of code)) }
{
    match code {
        0 => 0.125,
        1 => 0.25,
        2 => 0.5,
        _ => 1.0,
    }
}

// All four coordinates are in range: a caller may write any stroke.
fn ends_inside(s: Stroke) -> bool
    ensures { result ≡ ends_inside_of s }
{
    int16(s.x0) && int16(s.y0) && int16(s.x1) && int16(s.y1)
}

// The stroke is a dot.
pub fn ends_equal(s: Stroke) -> bool
    ensures { result ≡ ends_equal_of s }
{
    s.x0 == s.x1 && s.y0 == s.y1
}

// Units times the pitch. The whole number is converted first, so that zero is plus zero.
fn millimetres(units: i64, code: u8) -> f32
    requires { (I.int16 units ≡ true) × (code ≤ last_code) }
    ensures { result ≡ f32_of (units *ℤ pos (pitch_of code)) }
{
    units as f32 * pitch_of(code)
}

// The place of a point in units.
fn place_at(x: i64, y: i64, code: u8) -> Place
    requires { (I.int16 x ≡ true) × (I.int16 y ≡ true) × (code ≤ last_code) }
    ensures { result ≡ place_of (spot_of x y code) }
{
    Place {
        x: millimetres(x, code),
        y: millimetres(y, code),
    }
}

// The moves of a stroke at a pitch code, or why there are none. The pen is not looked at.
pub fn drive(stroke: Stroke, pitch: u8) -> Result<Moves, Refusal>
    ensures { Gives result (answer_of stroke pitch) }
{
    if LAST_CODE < pitch {
        return Err(Refusal::Pitch);
    }
    if !ends_inside(stroke) {
        return Err(Refusal::End);
    }
    let start = place_at(stroke.x0, stroke.y0, pitch);
    if ends_equal(stroke) {
        return Ok(Moves::One(Move::Dot(start)));
    }
    let end = place_at(stroke.x1, stroke.y1, pitch);
    Ok(Moves::Two(Move::Travel(start), Move::Paint(end)))
}
