// Escape sequences between instructions, as a serial line to a plotter has them: where they stand, and which are none after all.
ghost use Rattle.std.specs.Prelude.{◌≡◌};
ghost use Rattle.scanning.specs.Escapes as S;

use console::sum;
use numerals::bytes::{Class, class_of};

pub(crate) const ESC: u8 = 27;

// How far a sequence is read, and how many were broken off. A state is a number and no enum: belongs and piece answer for every number (docs/CONTRACTS.md).
#[derive(Clone, Copy)]
pub struct Escapes {
    pub state: u8,
    pub broken: u64,
}

pub fn no_escapes() -> Escapes
    ensures { result ≡ S.no_escapes }
{
    Escapes {
        state: 0,
        broken: 0,
    }
}

// Between instructions.
#[tactic(auto, unfolding(crate::specs::Escapes::between, crate::specs::Escapes::between_class))]
fn between(byte: u8) -> u8
    ensures { result ≡ S.between byte }
{
    if byte == ESC {
        return 2;
    }
    match class_of(byte) {
        Class::Blank | Class::Semicolon => 0,
        _ => 1,
    }
}

// Anywhere else, up to a semicolon.
#[tactic(auto, unfolding(crate::specs::Escapes::elsewhere))]
fn elsewhere(byte: u8) -> u8
    ensures { result ≡ S.elsewhere byte }
{
    match byte {
        b';' => 0,
        _ => 1,
    }
}

// After ESC.
#[tactic(auto, unfolding(crate::specs::Escapes::point))]
fn point(byte: u8) -> u8
    ensures { result ≡ S.point byte }
{
    match byte {
        b'.' => 3,
        _ => 1,
    }
}

// After ESC and a point: what the sequence is for.
#[tactic(auto, unfolding(crate::specs::Escapes::purpose, crate::specs::Escapes::purpose_class))]
fn purpose(byte: u8) -> u8
    ensures { result ≡ S.purpose byte }
{
    if matches!(byte, b'@' | b'(' | b')') {
        return 5;
    }
    match class_of(byte) {
        Class::Letter(_) => 4,
        _ => 1,
    }
}

// Its numbers, and its end.
#[tactic(auto, unfolding(crate::specs::Escapes::numbers, crate::specs::Escapes::numbers_class))]
fn numbers(byte: u8) -> u8
    ensures { result ≡ S.numbers byte }
{
    if byte == ESC {
        return 2;
    }
    if byte == b':' {
        return 0;
    }
    match class_of(byte) {
        Class::Blank => 0,
        Class::Semicolon | Class::Digit(_) => 5,
        _ => 1,
    }
}

// How far a sequence is read after a byte.
#[tactic(auto, unfolding(crate::specs::Escapes::after))]
fn after(state: u8, byte: u8) -> u8
    ensures { result ≡ S.after state byte }
{
    match state {
        0 => between(byte),
        1 => elsewhere(byte),
        2 => point(byte),
        3 => purpose(byte),
        _ => numbers(byte),
    }
}

// Whether a byte belongs to a sequence.
#[tactic(auto, unfolding(crate::specs::Escapes::belongs))]
pub fn belongs(state: u8, byte: u8) -> bool
    ensures { result ≡ S.belongs state byte }
{
    let next = after(state, byte);
    next > 1 || state > 3 && next == 0
}

// Whether a sequence is broken off: no point or purpose follows, or a letter the letter that it is for.
#[tactic(auto, unfolding(crate::specs::Escapes::breaks))]
fn breaks(state: u8, next: u8) -> bool
    ensures { result ≡ S.breaks state next }
{
    2 <= state && state <= 4 && next == 1
}

#[tactic(auto, unfolding(crate::specs::Escapes::one_more))]
fn one_more(count: u64, state: u8, next: u8) -> u64
    ensures { result ≡ S.one_more count state next }
{
    if breaks(state, next) {
        return sum(count, 1);
    }
    count
}

// The sequences among these bytes.
pub fn escapes_in(e: Escapes, bytes: &[u8]) -> Escapes
    ensures { result ≡ S.escapes_in e bytes.now }
{
    let mut state = e.state;
    let mut broken = e.broken;
    for &byte in bytes {
        let next = after(state, byte);
        broken = one_more(broken, state, next);
        state = next;
    }
    Escapes { state, broken }
}

// How many are broken off where the input ends.
#[tactic(auto, unfolding(crate::specs::Escapes::broken_at_end))]
pub fn broken_at_end(e: Escapes) -> u64
    ensures { result ≡ S.broken_at_end e }
{
    match e.state {
        2 | 3 => sum(e.broken, 1),
        _ => e.broken,
    }
}
