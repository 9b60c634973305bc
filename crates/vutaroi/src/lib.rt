// The machine for programs in C and Rust. A slice crosses as a pointer and a length, and the machine is kept by the caller, as a list of numbers: a header and what `save` writes.
// The calls are for all lists. One that is too short is answered with 41, then one that is no machine with 40; then nothing is written.
// specs/Calls.antt has one definition for what each call leaves; the crate readiness has that each list which the calls leave is a machine. include/vutaroi.h is the same in C's words.
#![tactic(auto)]

ghost use Rattle.std.specs.Prelude.{◌≡◌};
ghost use Rattle.hpgl.specs.Machine.{rect};
ghost use Rattle.vutaroi.specs.Calls.{fresh_call, take_call, draw_call, look_call, fetch_call, feed_call, plot_call, write_call};

use calling::{draw_in, feed_in, fetch_in, fresh_in, look_in, plot_in, take_in};
use readiness::{HEADER, LIST, TOO_SHORT, ready};
use redrawing::write;
use seal::seal;

// Each call is written out, though those between `ready` and `seal` are alike: one function over the call can't tell its caller what a closure wrote to the other lists that it
// captured (`FnOnce`'s `post` has its arguments and its answer alone), and those lists are not the same in any three of them.

// The version of the library: 0.1.0.
const VERSION: u32 = 100;

#[unsafe(no_mangle)]
pub extern "C" fn vutaroi_version() -> u32
    ensures { result ≡ 100 }
{
    VERSION
}

#[unsafe(no_mangle)]
pub extern "C" fn vutaroi_fresh(
    left: i64,
    bottom: i64,
    right: i64,
    top: i64,
    state: &mut [i64],
) -> u8
    ensures value { result ≡ (fresh_call (rect left bottom right top) state.old).number }
    ensures state_after { state.new ≡ (fresh_call (rect left bottom right top) state.old).state }
{
    if state.len() == LIST {
        let number = fresh_in(left, bottom, right, top, &mut state[HEADER..]);
        seal(state);
        return number;
    }
    TOO_SHORT
}

#[unsafe(no_mangle)]
pub extern "C" fn vutaroi_take(state: &mut [i64], byte: u8) -> u8
    ensures value { result ≡ (take_call state.old byte).number }
    ensures state_after { state.new ≡ (take_call state.old byte).state }
{
    let status = ready(state, 0, 0);
    if status == 0 {
        let number = take_in(&mut state[HEADER..], byte);
        seal(state);
        return number;
    }
    status
}

#[unsafe(no_mangle)]
pub extern "C" fn vutaroi_draw(state: &mut [i64], stroke: &mut [i64]) -> u8
    ensures value { result ≡ (draw_call state.old stroke.old).number }
    ensures state_after { state.new ≡ (draw_call state.old stroke.old).state }
    ensures stroke_after { stroke.new ≡ (draw_call state.old stroke.old).stroke }
{
    let status = ready(state, 5, stroke.len());
    if status == 0 {
        let kind = draw_in(&mut state[HEADER..], stroke);
        seal(state);
        return kind;
    }
    status
}

#[unsafe(no_mangle)]
pub extern "C" fn vutaroi_look(state: &[i64], seen: &mut [i64]) -> u8
    ensures value { result ≡ (look_call state.now seen.old).number }
    ensures seen_after { seen.new ≡ (look_call state.now seen.old).seen }
{
    let status = ready(state, 5, seen.len());
    if status == 0 {
        let numbers = &state[HEADER..];
        look_in(numbers, seen);
        return 0;
    }
    status
}

#[unsafe(no_mangle)]
pub extern "C" fn vutaroi_fetch(state: &mut [i64], out: &mut [u8], answer: &mut [u64]) -> u8
    ensures value { result ≡ (fetch_call state.old out.old answer.old).number }
    ensures state_after { state.new ≡ (fetch_call state.old out.old answer.old).state }
    ensures out_after { out.new ≡ (fetch_call state.old out.old answer.old).out }
    ensures answer_after { answer.new ≡ (fetch_call state.old out.old answer.old).answer }
{
    let status = ready(state, 1, answer.len());
    if status == 0 {
        let number = fetch_in(&mut state[HEADER..], out, answer);
        seal(state);
        return number;
    }
    status
}

#[unsafe(no_mangle)]
pub extern "C" fn vutaroi_feed(
    state: &mut [i64],
    bytes: &[u8],
    records: &mut [i64],
    answer: &mut [u64],
) -> u8
    ensures value { result ≡ (feed_call state.old bytes.now records.old answer.old).number }
    ensures state_after { state.new ≡ (feed_call state.old bytes.now records.old answer.old).state }
    ensures records_after { records.new ≡ (feed_call state.old bytes.now records.old answer.old).records }
    ensures answer_after { answer.new ≡ (feed_call state.old bytes.now records.old answer.old).answer }
{
    let status = ready(state, 2, answer.len());
    if status == 0 {
        let number = feed_in(&mut state[HEADER..], bytes, records, answer);
        seal(state);
        return number;
    }
    status
}

#[unsafe(no_mangle)]
pub extern "C" fn vutaroi_plot(
    state: &mut [i64],
    bytes: &[u8],
    records: &mut [i64],
    answer: &mut [u64],
) -> u8
    ensures value { result ≡ (plot_call state.old bytes.now records.old answer.old).number }
    ensures state_after { state.new ≡ (plot_call state.old bytes.now records.old answer.old).state }
    ensures records_after { records.new ≡ (plot_call state.old bytes.now records.old answer.old).records }
    ensures answer_after { answer.new ≡ (plot_call state.old bytes.now records.old answer.old).answer }
{
    let status = ready(state, 2, answer.len());
    if status == 0 {
        let number = plot_in(&mut state[HEADER..], bytes, records, answer);
        seal(state);
        return number;
    }
    status
}

#[unsafe(no_mangle)]
pub extern "C" fn vutaroi_write(numbers: &[i64], out: &mut [u8], answer: &mut [u64]) -> u8
    ensures value { result ≡ (write_call numbers.now out.old answer.old).number }
    ensures out_after { out.new ≡ (write_call numbers.now out.old answer.old).out }
    ensures answer_after { answer.new ≡ (write_call numbers.now out.old answer.old).answer }
{
    if answer.len() == 0 {
        return TOO_SHORT;
    }
    match write(numbers, out) {
        Ok(length) => {
            answer[0] = length as u64;
            0
        }
        Err(refusal) => {
            answer[0] = 0;
            refusal.number()
        }
    }
}
