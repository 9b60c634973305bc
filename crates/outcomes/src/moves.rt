// Drive moves, with their places as the bits of two f32.
use drive::{Move, Moves, Place, Refusal};
use output::Text;
use std::fmt;
use std::fmt::Write;

// The eight hexadecimal digits of a float's bits. Those of a NaN cannot be read.
fn put_float(out: &mut Text<'_>, x: f32) -> fmt::Result {
    if x.is_nan() {
        return write!(out, " NaN");
    }
    write!(out, " {:08x}", x.to_bits())
}

fn put_move(out: &mut Text<'_>, step: Move) -> fmt::Result {
    let (name, place) = match step {
        Move::Travel(place) => ("travel", place),
        Move::Paint(place) => ("paint", place),
        Move::Dot(place) => ("dot", place),
    };
    let Place { x, y } = place;
    write!(out, " {name}")?;
    put_float(out, x)?;
    put_float(out, y)
}

pub fn put_moves(out: &mut Text<'_>, moves: Result<Moves, Refusal>) -> fmt::Result {
    match moves {
        Ok(Moves::Two(first, second)) => {
            put_move(out, first)?;
            put_move(out, second)
        }
        Ok(Moves::One(dot)) => put_move(out, dot),
        Err(why) => write!(out, " E{}", u8::from(why)),
    }
}
