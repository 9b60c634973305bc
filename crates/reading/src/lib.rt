// The code of the reader: bytes to events, one by one or a run at once, as the definitions of the crate reader say.
#![tactic(auto)]

ghost use Rattle.std.specs.Prelude.{◌≡◌, true, drop};
ghost use Rattle.reader.specs.Inside.{inside};
ghost use Rattle.reader.specs.Next.{more_digits, is_nothing, in_parameters, awaits_pair, paired_of, ReadAhead, next_of};
ghost use Rattle.reader.specs.Reader.{none_of, stored_of, pair_of, fresh_reader, go_on_of, quiet_of, refuse_of, begin_of, open_of, with_numbers};
ghost use Rattle.reader.specs.Step.{name_of, kept_of, closed_of, end_of, complete_of, ending_of, after_number_of, close_of, idle_of, first_of, parameters_of, in_number_of, pass_over_of, label_of, step_of, passed_mode, passed_over};

use mnemonics::{IN, count_fits, find, has_room, is_label, takes_pairs};
use numerals::bytes::{Class, class_of, is_at, is_digit};
use numerals::number::{Number, number_at};
use reader::{
    Closed, Coordinates, Event, Mode, Next, Numbers, OUT_OF_RANGE, Reader, Step, UNKNOWN,
    WRONG_COUNT,
};

// A label's text ends with this byte.
const LABEL_END: u8 = 3;

#[tactic(auto, using(exact::proofs::Rules::rules), unfolding(reader::specs::Reader::none_of))]
fn none() -> Numbers
    ensures { result ≡ none_of }
{
    Numbers {
        count: 0,
        first: 0,
        second: 0,
        third: 0,
        fourth: 0,
    }
}

// One number more, at the place that the count says.
#[tactic(auto, using(exact::proofs::Rules::rules), unfolding(reader::specs::Reader::stored_of))]
fn stored(numbers: Numbers, value: i64) -> Numbers
    ensures { result ≡ stored_of numbers value }
{
    match numbers.count {
        0 => Numbers {
            count: 1,
            first: value,
            ..numbers
        },
        1 => Numbers {
            count: 2,
            second: value,
            ..numbers
        },
        2 => Numbers {
            count: 3,
            third: value,
            ..numbers
        },
        _ => Numbers {
            count: 4,
            fourth: value,
            ..numbers
        },
    }
}

// The pair that a number completes.
#[tactic(auto, using(exact::proofs::Rules::rules), unfolding(reader::specs::Reader::pair_of))]
fn pair(numbers: Numbers, value: i64) -> Coordinates
    ensures { result ≡ pair_of numbers value }
{
    Coordinates {
        x: numbers.first,
        y: value,
    }
}

// Whether a mode is inside an instruction: after its name, and before the byte that ends it or is refused.
#[tactic(auto, using(exact::proofs::Rules::rules), unfolding(reader::specs::Inside::inside))]
fn inside(mode: Mode) -> bool
    ensures { result ≡ inside mode }
{
    matches!(mode, Mode::Parameters | Mode::InNumber)
}

// Whether a mode is in an instruction with no number open.
#[tactic(auto, using(exact::proofs::Rules::rules), unfolding(reader::specs::Next::in_parameters))]
fn in_parameters(mode: Mode) -> bool
    ensures { result ≡ in_parameters mode }
{
    matches!(mode, Mode::Parameters)
}

// Inside an instruction its rest is passed over, and elsewhere the mode stays. No refused byte leaves a number open.
#[tactic(auto, using(exact::proofs::Rules::rules), unfolding(reader::specs::Step::passed_mode))]
fn passed_mode(mode: Mode) -> Mode
    ensures { result ≡ passed_mode mode }
{
    if inside(mode) { Mode::PassOver } else { mode }
}

// Whether a byte is one more digit of an open number.
#[tactic(auto, using(exact::proofs::Rules::rules), unfolding(reader::specs::Next::more_digits))]
fn more_digits(mode: Mode, byte: u8) -> bool
    ensures { result ≡ more_digits mode byte }
{
    matches!(mode, Mode::InNumber) && is_digit(byte)
}

// The mode that a byte which ends a number leads to. Others do not end it.
#[tactic(auto, using(exact::proofs::Rules::rules), unfolding(reader::specs::Step::ending_of))]
fn ending(class: Class) -> Mode
    ensures { result ≡ ending_of class }
{
    match class {
        Class::Blank => Mode::Parameters,
        Class::Semicolon => Mode::Idle,
        Class::Letter(letter) => Mode::First(letter),
        Class::Digit(_) | Class::Sign(_) | Class::Point | Class::Other => Mode::InNumber,
    }
}

#[tactic(auto, using(exact::proofs::Rules::rules), unfolding(reader::specs::Next::is_nothing))]
fn is_nothing(event: Event) -> bool
    ensures { result ≡ is_nothing event }
{
    matches!(event, Event::Nothing)
}

#[tactic(auto, using(exact::proofs::Rules::rules), unfolding(reader::specs::Reader::fresh_reader))]
pub fn fresh() -> Reader
    ensures { result ≡ fresh_reader }
{
    Reader {
        mode: Mode::Idle,
        op: IN,
        numbers: none(),
        number: Number::start(false),
    }
}

// One byte.
#[tactic(auto, using(exact::proofs::Rules::rules), unfolding(reader::specs::Step::step_of, reader::specs::Step::by_mode))]
pub fn step(reader: Reader, byte: u8) -> Step
    ensures { result ≡ step_of reader byte }
{
    let class = class_of(byte);
    match reader.mode {
        Mode::Idle => idle(reader, class),
        Mode::First(letter) => first(reader, letter, class),
        Mode::Parameters => parameters(reader, class),
        Mode::InNumber => in_number(reader, class),
        Mode::PassOver => pass_over(reader, class),
        Mode::Label => label(reader, byte),
    }
}

// The bytes from a place on, up to the first that means something, or the end.
#[tactic(auto, unfolding(reader::specs::Next::ReadAhead))]
pub fn next(reader: Reader, bytes: &[u8], from: usize) -> Next
    ensures { result ≡ next_of reader (drop from bytes.now) from }
{
    // most of a drawing
    if awaits_pair(reader) {
        if let Some(next) = pair_ahead(reader, bytes, from) {
            return next;
        }
    }
    by_steps(reader, bytes, from)
}

// Whether a pair may begin: in an instruction that takes pairs, with no number of one.
#[tactic(auto, using(exact::proofs::Rules::rules), unfolding(reader::specs::Next::awaits_pair))]
fn awaits_pair(reader: Reader) -> bool
    ensures { result ≡ awaits_pair reader }
{
    in_parameters(reader.mode) && takes_pairs(reader.op) && reader.numbers.count == 0
}

// A pair as most are written, with a comma between its numbers and a comma or semicolon after it. Others are read by steps.
#[tactic(auto, unfolding(reader::specs::Next::ReadAhead))]
fn pair_ahead(reader: Reader, bytes: &[u8], from: usize) -> Option<Next>
    requires { awaits_pair reader ≡ true }
    ensures { ReadAhead reader (drop from bytes.now) from result }
{
    let x = number_at(bytes, from);
    if !is_at(bytes, x.at, b',') {
        return None;
    }
    let y = number_at(bytes, x.at + 1);
    let across = x.number.finish()?;
    let up = y.number.finish()?;
    let pair = Coordinates { x: across, y: up };
    if is_at(bytes, y.at, b';') {
        return Some(paired(reader, Mode::Idle, y.number, pair, y.at + 1));
    }
    if is_at(bytes, y.at, b',') {
        return Some(paired(reader, Mode::Parameters, y.number, pair, y.at + 1));
    }
    None
}

// After a pair whose last number is this one.
#[tactic(auto, using(exact::proofs::Rules::rules), unfolding(reader::specs::Next::paired_of))]
fn paired(reader: Reader, mode: Mode, number: Number, pair: Coordinates, at: usize) -> Next
    ensures { result ≡ paired_of reader mode number pair at }
{
    Next {
        reader: Reader {
            mode,
            numbers: none(),
            number,
            ..reader
        },
        event: Event::Pair(pair),
        at,
    }
}

// The same, byte by byte, and a run of digits at once.
fn by_steps(start: Reader, bytes: &[u8], from: usize) -> Next
    ensures { result ≡ next_of start (drop from bytes.now) from }
{
    let mut reader = start;
    let mut at = from;
    // a while, since a run of digits moves the place by more than one
    while at < bytes.len() {
        let byte = bytes[at];
        // most bytes of a drawing: only the number changes, and no step is built
        if more_digits(reader.mode, byte) {
            let scanned = reader.number.with_digits(bytes, at);
            reader.number = scanned.number;
            at = scanned.at;
            continue;
        }
        at += 1;
        let stepped = step(reader, byte);
        reader = stepped.reader;
        let event = stepped.event;
        if is_nothing(event) {
            continue;
        }
        return Next { reader, event, at };
    }
    Next {
        reader,
        event: Event::Nothing,
        at,
    }
}

// Where a refusal leaves the reader, by a layer above or its own.
#[tactic(auto, using(exact::proofs::Rules::rules), unfolding(reader::specs::Step::passed_over))]
pub fn passed_over(reader: Reader) -> Reader
    ensures { result ≡ passed_over reader }
{
    Reader {
        mode: passed_mode(reader.mode),
        ..reader
    }
}

// Between instructions.
#[tactic(auto, using(exact::proofs::Rules::rules), unfolding(reader::specs::Step::idle_of))]
fn idle(reader: Reader, class: Class) -> Step
    ensures { result ≡ idle_of reader class }
{
    match class {
        Class::Blank | Class::Semicolon => quiet(reader, Mode::Idle),
        Class::Letter(letter) => quiet(reader, Mode::First(letter)),
        Class::Digit(_) | Class::Sign(_) | Class::Point | Class::Other => refuse(
            reader,
            Mode::PassOver,
            UNKNOWN,
        ),
    }
}

// After a first letter.
#[tactic(auto, using(exact::proofs::Rules::rules), unfolding(reader::specs::Step::first_of))]
fn first(reader: Reader, letter: u8, class: Class) -> Step
    ensures { result ≡ first_of reader letter class }
{
    match class {
        Class::Semicolon => refuse(reader, Mode::Idle, UNKNOWN),
        Class::Letter(second) => name(reader, letter, second),
        Class::Blank | Class::Digit(_) | Class::Sign(_) | Class::Point | Class::Other => refuse(
            reader,
            Mode::PassOver,
            UNKNOWN,
        ),
    }
}

// In an instruction, with no number open.
#[tactic(auto, using(exact::proofs::Rules::rules), unfolding(reader::specs::Step::parameters_of))]
fn parameters(reader: Reader, class: Class) -> Step
    ensures { result ≡ parameters_of reader class }
{
    match class {
        Class::Blank => quiet(reader, Mode::Parameters),
        Class::Semicolon => end(reader, Mode::Idle),
        Class::Letter(letter) => end(reader, Mode::First(letter)),
        Class::Digit(digit) => open(reader, Number::start(false).with_digit(digit)),
        Class::Sign(minus) => open(reader, Number::start(minus)),
        Class::Point => open(reader, Number::start(false).with_point()),
        Class::Other => refuse(reader, Mode::PassOver, UNKNOWN),
    }
}

// In an instruction, with a number open.
#[tactic(auto, using(exact::proofs::Rules::rules), unfolding(reader::specs::Step::in_number_of, reader::specs::Step::ending_of))]
fn in_number(reader: Reader, class: Class) -> Step
    ensures { result ≡ in_number_of reader class }
{
    let number = reader.number;
    match class {
        // one call for the three: what is called at one place is built in there, and runs faster
        Class::Blank | Class::Semicolon | Class::Letter(_) => close(reader, ending(class)),
        Class::Digit(digit) => open(reader, number.with_digit(digit)),
        Class::Sign(_) => refuse(reader, Mode::PassOver, OUT_OF_RANGE),
        Class::Point => {
            if number.has_point() {
                return refuse(reader, Mode::PassOver, OUT_OF_RANGE);
            }
            open(reader, number.with_point())
        }
        Class::Other => refuse(reader, Mode::PassOver, UNKNOWN),
    }
}

// After a refusal, up to a semicolon or letter.
#[tactic(auto, using(exact::proofs::Rules::rules), unfolding(reader::specs::Step::pass_over_of))]
fn pass_over(reader: Reader, class: Class) -> Step
    ensures { result ≡ pass_over_of reader class }
{
    match class {
        Class::Semicolon => quiet(reader, Mode::Idle),
        Class::Letter(letter) => quiet(reader, Mode::First(letter)),
        Class::Blank | Class::Digit(_) | Class::Sign(_) | Class::Point | Class::Other => quiet(
            reader,
            Mode::PassOver,
        ),
    }
}

// In a label's text.
#[tactic(auto, using(exact::proofs::Rules::rules), unfolding(reader::specs::Step::label_of))]
fn label(reader: Reader, byte: u8) -> Step
    ensures { result ≡ label_of reader byte }
{
    if byte == LABEL_END {
        return quiet(reader, Mode::Idle);
    }
    quiet(reader, Mode::Label)
}

// The second letter of a name.
#[tactic(auto, using(exact::proofs::Rules::rules), unfolding(reader::specs::Step::name_of, reader::specs::Step::found_of))]
fn name(reader: Reader, first: u8, second: u8) -> Step
    ensures { result ≡ name_of reader first second }
{
    if is_label(first, second) {
        return refuse(reader, Mode::Label, UNKNOWN);
    }
    match find(first, second) {
        Some(op) => begin(reader, op),
        None => refuse(reader, Mode::PassOver, UNKNOWN),
    }
}

// An instruction begins.
#[tactic(auto, using(exact::proofs::Rules::rules), unfolding(reader::specs::Reader::begin_of))]
fn begin(reader: Reader, op: usize) -> Step
    ensures { result ≡ begin_of reader op }
{
    Step {
        reader: Reader {
            mode: Mode::Parameters,
            op,
            numbers: none(),
            ..reader
        },
        event: Event::Named(op),
    }
}

// An instruction ends.
#[tactic(auto, using(exact::proofs::Rules::rules), unfolding(reader::specs::Step::end_of))]
fn end(reader: Reader, mode: Mode) -> Step
    ensures { result ≡ end_of reader mode }
{
    let Reader { op, numbers, .. } = reader;
    if count_fits(op, numbers.count) {
        return go_on(reader, mode, Event::Ended(op, numbers));
    }
    refuse(reader, mode, WRONG_COUNT)
}

// What becomes of a good number: the second of a pair completes it.
#[tactic(auto, using(exact::proofs::Rules::rules), unfolding(reader::specs::Step::kept_of))]
fn kept(reader: Reader, value: i64) -> Closed
    ensures { result ≡ kept_of reader value }
{
    let Reader { op, numbers, .. } = reader;
    if !has_room(op, numbers.count) {
        return Closed::Faulty(WRONG_COUNT);
    }
    if takes_pairs(op) && numbers.count == 1 {
        return Closed::Complete(pair(numbers, value));
    }
    Closed::Kept(stored(numbers, value))
}

// What becomes of the open number.
#[tactic(auto, using(exact::proofs::Rules::rules), unfolding(reader::specs::Step::closed_of, reader::specs::Step::judged_of))]
fn closed(reader: Reader) -> Closed
    ensures { result ≡ closed_of reader }
{
    match reader.number.finish() {
        Some(value) => kept(reader, value),
        None => Closed::Faulty(OUT_OF_RANGE),
    }
}

// A pair is complete, and no number of it is kept.
#[tactic(auto, using(exact::proofs::Rules::rules), unfolding(reader::specs::Step::complete_of))]
fn complete(reader: Reader, mode: Mode, pair: Coordinates) -> Step
    ensures { result ≡ complete_of reader mode pair }
{
    go_on(with_numbers(reader, none()), mode, Event::Pair(pair))
}

// A number has been kept: its instruction goes on, or the byte that leads out of it ends it.
#[tactic(auto, using(exact::proofs::Rules::rules), unfolding(reader::specs::Step::after_number_of))]
fn after_number(reader: Reader, mode: Mode) -> Step
    ensures { result ≡ after_number_of reader mode }
{
    if inside(mode) {
        return quiet(reader, mode);
    }
    end(reader, mode)
}

// The open number ends, on a byte that leads to a mode.
#[tactic(auto, using(exact::proofs::Rules::rules), unfolding(reader::specs::Step::close_of, reader::specs::Step::close_with))]
fn close(reader: Reader, mode: Mode) -> Step
    ensures { result ≡ close_of reader mode }
{
    match closed(reader) {
        Closed::Kept(numbers) => after_number(with_numbers(reader, numbers), mode),
        Closed::Complete(pair) => complete(reader, mode, pair),
        Closed::Faulty(cause) => refuse(reader, passed_mode(mode), cause),
    }
}

// The reader in an open number.
#[tactic(auto, using(exact::proofs::Rules::rules), unfolding(reader::specs::Reader::open_of))]
fn open(reader: Reader, number: Number) -> Step
    ensures { result ≡ open_of reader number }
{
    Step {
        reader: Reader {
            mode: Mode::InNumber,
            number,
            ..reader
        },
        event: Event::Nothing,
    }
}

#[tactic(auto, using(exact::proofs::Rules::rules), unfolding(reader::specs::Reader::with_numbers))]
fn with_numbers(reader: Reader, numbers: Numbers) -> Reader
    ensures { result ≡ with_numbers reader numbers }
{
    Reader { numbers, ..reader }
}

// The reader goes on in a mode, and the byte has a meaning: an event, nothing yet, or a refusal.
#[tactic(auto, using(exact::proofs::Rules::rules), unfolding(reader::specs::Reader::go_on_of))]
fn go_on(reader: Reader, mode: Mode, event: Event) -> Step
    ensures { result ≡ go_on_of reader mode event }
{
    Step {
        reader: Reader { mode, ..reader },
        event,
    }
}

#[tactic(auto, using(exact::proofs::Rules::rules), unfolding(reader::specs::Reader::quiet_of))]
fn quiet(reader: Reader, mode: Mode) -> Step
    ensures { result ≡ quiet_of reader mode }
{
    go_on(reader, mode, Event::Nothing)
}

#[tactic(auto, using(exact::proofs::Rules::rules), unfolding(reader::specs::Reader::refuse_of))]
fn refuse(reader: Reader, mode: Mode, cause: u8) -> Step
    ensures { result ≡ refuse_of reader mode cause }
{
    go_on(reader, mode, Event::Refused(cause))
}
