// What bytes say without a machine: pieces within which no other pen is taken and no escape sequence begins or ends, and line types that have numbers.
#![tactic(auto)]

ghost use Rattle.std.specs.Prelude.{◌≡◌, drop, length, not};
ghost use Rattle.std.specs.List.{take_while};
ghost use Rattle.scanning.specs.Pieces as P;
ghost use Rattle.scanning.specs.Types as T;

use console::{rest, sum};
use escapes::ESC;
use numerals::bytes::{Class, class_of};

pub mod escapes;

// Line types that have numbers: how far a name is read, and how many there are. How far is a number and no enum, since types_in answers for every one of them
// (docs/CONTRACTS.md). 0: no letter of it. 1: a first letter other than L. 2: an L. 3: LT, and blanks. 4: the first byte of LT's first number.
#[derive(Clone, Copy)]
pub struct Types {
    pub mode: u8,
    pub count: u64,
}

#[tactic(auto, unfolding(crate::specs::Pieces::is_s))]
fn is_s(byte: u8) -> bool
    ensures { result ≡ P.is_s byte }
{
    byte == b'S' || byte == b's'
}

// Whether a byte ends an instruction.
#[tactic(auto, unfolding(crate::specs::Pieces::ends_of, crate::specs::Pieces::ends_class))]
fn ends(byte: u8) -> bool
    ensures { result ≡ P.ends_of byte }
{
    matches!(class_of(byte), Class::Semicolon | Class::Letter(_))
}

// A mode is a number and no enum: mode_after and piece answer for every number (docs/CONTRACTS.md).
// How the next piece is read after a byte: 0 before an S, 1 and 2 byte by byte, from an S to the end of its instruction.
#[tactic(auto, unfolding(crate::specs::Pieces::mode_after))]
pub fn mode_after(mode: u8, byte: u8) -> u8
    ensures { result ≡ P.mode_after mode byte }
{
    if is_s(byte) {
        return 1;
    }
    match mode {
        0 => 0,
        1 => 2,
        _ if ends(byte) => 0,
        _ => 2,
    }
}

// Whether a byte begins what is read byte by byte: the name of SP, or an escape sequence.
#[tactic(auto, unfolding(crate::specs::Pieces::stops))]
fn stops(byte: u8) -> bool
    ensures { result ≡ P.stops byte }
{
    is_s(byte) || byte == ESC
}

// How many bytes from a place on there are before the first of these, or to the end.
fn up_to_stop(bytes: &[u8], from: usize) -> usize
    ensures { result ≡ length (take_while (λ b. not (P.stops b)) (drop from bytes.now)) }
{
    rest(bytes, from).iter().take_while(|b| !stops(**b)).count()
}

// How many bytes the next piece has: many where neither an SP nor an escape sequence is open.
#[tactic(auto, unfolding(crate::specs::Pieces::piece_of, crate::specs::Pieces::one_at_least))]
pub fn piece(mode: u8, escape: u8, bytes: &[u8], from: usize) -> usize
    ensures { result ≡ P.piece_of mode escape (drop from bytes.now) }
{
    if mode != 0 || escape > 1 {
        return 1;
    }
    up_to_stop(bytes, from).max(1)
}

pub fn no_types() -> Types
    ensures { result ≡ T.no_types }
{
    Types { mode: 0, count: 0 }
}

// How far a name is read after its first letter, and after its second.
#[tactic(auto, unfolding(crate::specs::Types::first_letter))]
fn first_letter(letter: u8) -> u8
    ensures { result ≡ T.first_letter letter }
{
    if letter == b'L' {
        return 2;
    }
    1
}

#[tactic(auto, unfolding(crate::specs::Types::second_letter))]
fn second_letter(letter: u8) -> u8
    ensures { result ≡ T.second_letter letter }
{
    if letter == b'T' {
        return 3;
    }
    0
}

#[tactic(auto, unfolding(crate::specs::Types::letter_after))]
fn letter_after(mode: u8, letter: u8) -> u8
    ensures { result ≡ T.letter_after mode letter }
{
    match mode {
        1 => 0,
        2 => second_letter(letter),
        _ => first_letter(letter),
    }
}

// After LT: a blank changes nothing, and a number is its first.
#[tactic(auto, unfolding(crate::specs::Types::blank_after))]
fn blank_after(mode: u8) -> u8
    ensures { result ≡ T.blank_after mode }
{
    match mode {
        3 => 3,
        _ => 0,
    }
}

#[tactic(auto, unfolding(crate::specs::Types::number_after))]
fn number_after(mode: u8) -> u8
    ensures { result ≡ T.number_after mode }
{
    match mode {
        3 => 4,
        _ => 0,
    }
}

#[tactic(auto, unfolding(crate::specs::Types::type_after, crate::specs::Types::class_after))]
fn type_after(mode: u8, byte: u8) -> u8
    ensures { result ≡ T.type_after mode byte }
{
    match class_of(byte) {
        Class::Blank => blank_after(mode),
        Class::Letter(letter) => letter_after(mode, letter),
        Class::Digit(_) | Class::Sign(_) | Class::Point => number_after(mode),
        Class::Semicolon | Class::Other => 0,
    }
}

// One more, where the first number of a line type begins.
#[tactic(auto, unfolding(crate::specs::Types::one_more))]
fn one_more(count: u64, mode: u8) -> u64
    ensures { result ≡ T.one_more count mode }
{
    match mode {
        4 => sum(count, 1),
        _ => count,
    }
}

// The line types with numbers among these bytes.
pub fn types_in(t: Types, bytes: &[u8]) -> Types
    ensures { result ≡ T.types_in t bytes.now }
{
    let mut mode = t.mode;
    let mut count = t.count;
    for &byte in bytes {
        mode = type_after(mode, byte);
        count = one_more(count, mode);
    }
    Types { mode, count }
}
