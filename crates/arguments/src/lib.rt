// What a program is asked for by its arguments, word by word. specs/Request.antt says what each word asks for, and which are wrong; specs/Names.antt has the
// sheets that have a name.
#![tactic(auto)]

ghost use Rattle.std.specs.Prelude.{◌≡◌};
ghost use Rattle.arguments.specs.Names as N;
ghost use Rattle.arguments.specs.Request as S;

use clip::Rect;
use exact::int16;
use std::fmt;
use textlines::word::whole_of;

pub mod desk;

// Why a word is wrong.
#[derive(Clone, Copy, Debug, PartialEq, Eq)]
pub enum Wrong {
    Unknown,
    OutOfRange,
    NotAbove,
    NoSheet,
    NoScale,
    Again,
    Missing,
    Fewer,
}

impl fmt::Display for Wrong {
    fn fmt<W: fmt::Write>(&self, f: &mut fmt::Formatter<W>) -> fmt::Result {
        f.write_str(match self {
            Wrong::Unknown => "no such option",
            Wrong::OutOfRange => "a limit is -32768 to 32767",
            Wrong::NotAbove =>
                "limits are left bottom right top, left below right, bottom below top",
            Wrong::NoSheet => "no sheet has this name; hockey and curling are sheets",
            Wrong::NoScale => "a scale is a whole number from 1 to 255",
            Wrong::Again => "limits, a scale and a file are each given once",
            Wrong::Missing => "the word after it is missing",
            Wrong::Fewer => "limits are four numbers, left bottom right top",
        })
    }
}

// Outcomes: a run, a text that is asked for, or why a word is wrong. Numbers and no enum, as is what the next word is: taken and ended answer for every one of
// them (docs/CONTRACTS.md).
pub const RUN: u8 = 0;

pub const HELP: u8 = 1;

pub const VERSION: u8 = 2;

pub const UNKNOWN: u8 = 3;

pub const OUT_OF_RANGE: u8 = 4;

pub const NOT_ABOVE: u8 = 5;

pub const NO_SHEET: u8 = 6;

pub const NO_SCALE: u8 = 7;

pub const AGAIN: u8 = 8;

pub const MISSING: u8 = 9;

pub const FEWER: u8 = 10;

impl Wrong {
    // The outcome that tells it.
    pub fn outcome(self) -> u8
        ensures { result ≡ S.told self }
    {
        match self {
            Wrong::Unknown => UNKNOWN,
            Wrong::OutOfRange => OUT_OF_RANGE,
            Wrong::NotAbove => NOT_ABOVE,
            Wrong::NoSheet => NO_SHEET,
            Wrong::NoScale => NO_SCALE,
            Wrong::Again => AGAIN,
            Wrong::Missing => MISSING,
            Wrong::Fewer => FEWER,
        }
    }

    // What an outcome tells of a word.
    #[tactic(auto, unfolding(crate::specs::Request::tells))]
    pub fn of(outcome: u8) -> Wrong
        ensures { result ≡ S.tells outcome }
    {
        match outcome {
            OUT_OF_RANGE => Wrong::OutOfRange,
            NOT_ABOVE => Wrong::NotAbove,
            NO_SHEET => Wrong::NoSheet,
            NO_SCALE => Wrong::NoScale,
            AGAIN => Wrong::Again,
            MISSING => Wrong::Missing,
            FEWER => Wrong::Fewer,
            _ => Wrong::Unknown,
        }
    }
}

// What the next word is.
const ANYTHING: u8 = 0;

const A_SHEET: u8 = 1;

const A_SCALE: u8 = 2;

// What the words so far ask for: an outcome, with the word that made it; what the next word is; how many limits were given, and the limits; the scale, and
// whether it was given, as without it there is one too; and the word that names a file, 0 for standard input.
#[derive(Clone, Copy)]
pub struct Request {
    pub outcome: u8,
    pub at: usize,
    pub next: u8,
    pub given: u8,
    pub limits: Rect,
    pub scale: u8,
    pub scaled: bool,
    pub file: usize,
}

// No word yet.
pub fn begun() -> Request
    ensures { result ≡ S.begun_of }
{
    Request {
        outcome: RUN,
        at: 0,
        next: ANYTHING,
        given: 0,
        limits: Rect {
            left: -10000,
            bottom: -7000,
            right: 10000,
            top: 7000,
        },
        scale: 40,
        scaled: false,
        file: 0,
    }
}

// The word at a place decides.
fn decided(r: Request, at: usize, outcome: u8) -> Request
    ensures { result ≡ S.decided_of r at outcome }
{
    Request { outcome, at, ..r }
}

// After an option.
fn expecting(r: Request, at: usize, next: u8) -> Request
    ensures { result ≡ S.expecting_of r at next }
{
    Request { at, next, ..r }
}

// With so many limits given.
fn bounded(r: Request, at: usize, limits: Rect, given: u8) -> Request
    ensures { result ≡ S.bounded_of r at limits given }
{
    Request {
        at,
        next: ANYTHING,
        given,
        limits,
        ..r
    }
}

fn scaled(r: Request, at: usize, scale: u8) -> Request
    ensures { result ≡ S.scaled_of r at scale }
{
    Request {
        at,
        next: ANYTHING,
        scale,
        scaled: true,
        ..r
    }
}

fn filed(r: Request, at: usize) -> Request
    ensures { result ≡ S.filed_of r at }
{
    Request { file: at, ..r }
}

fn same(word: &[u8], name: &[u8]) -> bool
    ensures { result ≡ N.same word.now name.now }
{
    word == name
}

// The hard limits of each sheet that has a name.
#[tactic(auto, using(exact::proofs::Rules::rules64), unfolding(crate::specs::Names::sheet_named, hpgl::specs::Trace::bytes, hpgl::specs::Trace::bytes_from))]
fn sheet_named(word: &[u8]) -> Option<Rect>
    ensures { result ≡ N.sheet_named word.now }
{
    if same(word, b"hockey") {
        return Some(Rect {
            left: -30000,
            bottom: -15000,
            right: 30000,
            top: 15000,
        });
    }
    if same(word, b"curling") {
        return Some(Rect {
            left: -22860,
            bottom: -2500,
            right: 22860,
            top: 2500,
        });
    }
    None
}

// The third limit has to be above the first.
#[tactic(auto, using(exact::proofs::Rules::rules64), unfolding(crate::specs::Request::right_of))]
fn right_placed(r: Request, at: usize, z: i64) -> Result<Request, Wrong>
    ensures { S.settled r at result ≡ S.right_of r at z }
{
    if r.limits.left < z {
        return Ok(bounded(
            r,
            at,
            Rect {
                right: z,
                ..r.limits
            },
            3,
        ));
    }
    Err(Wrong::NotAbove)
}

// And the fourth above the second.
#[tactic(auto, using(exact::proofs::Rules::rules64), unfolding(crate::specs::Request::top_of))]
fn top_placed(r: Request, at: usize, z: i64) -> Result<Request, Wrong>
    ensures { S.settled r at result ≡ S.top_of r at z }
{
    if r.limits.bottom < z {
        return Ok(bounded(r, at, Rect { top: z, ..r.limits }, 4));
    }
    Err(Wrong::NotAbove)
}

// The next of four limits.
#[tactic(auto, using(exact::proofs::Rules::rules64), unfolding(crate::specs::Request::placed_of))]
fn placed(r: Request, at: usize, z: i64) -> Result<Request, Wrong>
    ensures { S.settled r at result ≡ S.placed_of r at z }
{
    match r.given {
        0 => Ok(bounded(
            r,
            at,
            Rect {
                left: z,
                ..r.limits
            },
            1,
        )),
        1 => Ok(bounded(
            r,
            at,
            Rect {
                bottom: z,
                ..r.limits
            },
            2,
        )),
        2 => right_placed(r, at, z),
        3 => top_placed(r, at, z),
        _ => Err(Wrong::Again),
    }
}

// A number.
#[tactic(auto, using(exact::proofs::Rules::rules64), unfolding(crate::specs::Request::limit_of))]
fn limit(r: Request, at: usize, z: i64) -> Result<Request, Wrong>
    ensures { S.settled r at result ≡ S.limit_of r at z }
{
    if int16(z) {
        return placed(r, at, z);
    }
    Err(Wrong::OutOfRange)
}

// A file's name.
#[tactic(auto, using(exact::proofs::Rules::rules64), unfolding(crate::specs::Request::file_of))]
fn file(r: Request, at: usize, word: &[u8]) -> Result<Request, Wrong>
    ensures { S.settled r at result ≡ S.file_of r at word.now }
{
    if word.is_empty() || word[0] == b'-' {
        return Err(Wrong::Unknown);
    }
    if r.file == 0 {
        return Ok(filed(r, at));
    }
    Err(Wrong::Again)
}

// A word that is no option.
#[tactic(auto, using(exact::proofs::Rules::rules64), unfolding(crate::specs::Request::plain_of))]
fn plain(r: Request, at: usize, word: &[u8]) -> Result<Request, Wrong>
    ensures { S.settled r at result ≡ S.plain_of r at word.now }
{
    match whole_of(word) {
        Some(z) => limit(r, at, z),
        None => file(r, at, word),
    }
}

// After --sheet.
#[tactic(auto, using(exact::proofs::Rules::rules64), unfolding(crate::specs::Request::sheet_of))]
fn sheet(r: Request, at: usize, word: &[u8]) -> Result<Request, Wrong>
    ensures { S.settled r at result ≡ S.sheet_of r at word.now }
{
    let limits = sheet_named(word).ok_or(Wrong::NoSheet)?;
    Ok(bounded(r, at, limits, 4))
}

// A scale is a whole number from 1 to 255.
#[tactic(auto, using(exact::proofs::Rules::rules64), unfolding(crate::specs::Request::scale_number))]
fn scale_number(r: Request, at: usize, z: i64) -> Result<Request, Wrong>
    ensures { S.settled r at result ≡ S.scale_number r at z }
{
    if 0 < z && z < 256 {
        return Ok(scaled(r, at, z as u8));
    }
    Err(Wrong::NoScale)
}

// After --scale.
#[tactic(auto, using(exact::proofs::Rules::rules64), unfolding(crate::specs::Request::scale_of))]
fn scale(r: Request, at: usize, word: &[u8]) -> Result<Request, Wrong>
    ensures { S.settled r at result ≡ S.scale_of r at word.now }
{
    let z = whole_of(word).ok_or(Wrong::NoScale)?;
    scale_number(r, at, z)
}

// --sheet, where no limits are given.
#[tactic(auto, using(exact::proofs::Rules::rules64), unfolding(crate::specs::Request::sheet_option))]
fn sheet_option(r: Request, at: usize) -> Result<Request, Wrong>
    ensures { S.settled r at result ≡ S.sheet_option r at }
{
    if r.given == 0 {
        return Ok(expecting(r, at, A_SHEET));
    }
    Err(Wrong::Again)
}

// --scale, where none is given.
#[tactic(auto, using(exact::proofs::Rules::rules64), unfolding(crate::specs::Request::scale_option))]
fn scale_option(r: Request, at: usize) -> Result<Request, Wrong>
    ensures { S.settled r at result ≡ S.scale_option r at }
{
    if r.scaled {
        return Err(Wrong::Again);
    }
    Ok(expecting(r, at, A_SCALE))
}

// A word after which no other is expected.
#[tactic(auto, using(exact::proofs::Rules::rules64), unfolding(crate::specs::Request::option_of, hpgl::specs::Trace::bytes, hpgl::specs::Trace::bytes_from))]
fn option(r: Request, at: usize, word: &[u8]) -> Result<Request, Wrong>
    ensures { S.settled r at result ≡ S.option_of r at word.now }
{
    if same(word, b"--help") {
        return Ok(decided(r, at, HELP));
    }
    if same(word, b"--version") {
        return Ok(decided(r, at, VERSION));
    }
    if same(word, b"--sheet") {
        return sheet_option(r, at);
    }
    if same(word, b"--scale") {
        return scale_option(r, at);
    }
    plain(r, at, word)
}

// The word that is next, by what it is.
fn word_of(r: Request, at: usize, word: &[u8]) -> Result<Request, Wrong>
    ensures { S.settled r at result ≡ S.word_of r.next r at word.now }
{
    match r.next {
        A_SHEET => sheet(r, at, word),
        A_SCALE => scale(r, at, word),
        _ => option(r, at, word),
    }
}

// The word at a place, counted from 1: the first that asks for a text or is wrong decides.
#[tactic(auto, using(exact::proofs::Rules::rules64), unfolding(crate::specs::Request::taken_of))]
pub fn taken(r: Request, at: usize, word: &[u8]) -> Request
    ensures { result ≡ S.taken_of r at word.now }
{
    if r.outcome != RUN {
        return r;
    }
    match word_of(r, at, word) {
        Ok(next) => next,
        Err(why) => decided(r, at, why.outcome()),
    }
}

// Limits are none or four.
fn whole_limits(r: Request) -> Request
    ensures { result ≡ S.whole_limits r }
{
    match r.given {
        0 | 4 => r,
        _ => decided(r, r.at, FEWER),
    }
}

// No word is left.
#[tactic(auto, using(exact::proofs::Rules::rules64), unfolding(crate::specs::Request::ended_of))]
pub fn ended(r: Request) -> Request
    ensures { result ≡ S.ended_of r }
{
    if r.outcome != RUN {
        return r;
    }
    if r.next != ANYTHING {
        return decided(r, r.at, MISSING);
    }
    whole_limits(r)
}
