// The text of what the calls answer, as the program vectors prints it.
#![tactic(auto)]

use clip::Rect;
use hpgl::{Drawn, Look, Stroke};
use output::Text;
use std::fmt;
use std::fmt::Write;

pub mod moves;
pub mod records;
pub mod replies;

// Limits, and the number that fresh answers for them.
pub fn put_limits(out: &mut Text<'_>, limits: Rect, number: u8) -> fmt::Result {
    let Rect {
        left,
        bottom,
        right,
        top,
    } = limits;
    write!(out, "limits {left} {bottom} {right} {top} | {number}")
}

// A refusal: its number, and the byte, counted from 1. The number 0 is none: it is what take and feed answer, to C too, and no Option.
pub fn put_refusal(out: &mut Text<'_>, number: u8, byte: u64) -> fmt::Result {
    if number == 0 {
        return Ok(());
    }
    write!(out, " E{number}@{byte}")
}

// What a draw answered. "Idle" is no outcome; of a stroke its pen and the two ends are.
pub fn put_drawn(out: &mut Text<'_>, drawn: Drawn) -> fmt::Result {
    match drawn {
        Drawn::Idle => Ok(()),
        Drawn::Hidden => write!(out, " hid"),
        Drawn::Stroke(
            Stroke {
                pen,
                x0,
                y0,
                x1,
                y1,
            },
        ) => write!(out, " {pen}:{x0},{y0}-{x1},{y1}"),
    }
}

// What look answers, and whether a segment waits.
pub fn put_look(out: &mut Text<'_>, look: Look, waits: bool) -> fmt::Result {
    let Look {
        location,
        pen,
        down,
        bytes,
    } = look;
    let hand = if down { "dn" } else { "up" };
    let queue = if waits { "waits" } else { "idle" };
    write!(out, " x={} y={}", location.x, location.y)?;
    write!(out, " pen={pen} by={bytes} {hand} {queue}")
}
