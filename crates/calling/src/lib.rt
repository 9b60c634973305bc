// Each call on a machine that is kept as numbers, those that `save` writes: it is loaded, called and saved again, but for fetch.
// The crate vutaroi has the calls for programs in C and Rust, with the header before these numbers.
// Each is written out: only take and draw load and save with no other list between, and a function over the call would tell nothing of a list that its closure captured.
#![tactic(auto)]

ghost use Rattle.std.specs.Prelude.{◌≡◌, [], ◌∷◌, ◌≤◌, ◌/◌, length};
ghost use Rattle.rows.specs.Rows.{over};
ghost use Rattle.hpgl.specs.Machine.{rect, fresh_state, fresh_number, take_state, take_number, draw_state, draw_answer, look_at, fetch_state, fetch_number, fetch_text, fetch_out};
ghost use Rattle.feeding.specs.Feed.{feed_of, laid_numbers};
ghost use Rattle.feeding.specs.Plot.{plot_from, laid_marks};
ghost use Rattle.saved.specs.Saved.{state_numbers, saved_of, loaded_of};
ghost use Rattle.machine.specs.Loadable.{Loadable};
ghost use Rattle.answers.specs.Answers.{drawn_kind, drawn_numbers, look_numbers, counts_of, mark_counts_of};

use answers::{look_row, put_counts, put_drawn};
use hpgl::Work;
use machine::Machine;
use replies::writing::fetch;
use rows::put_row;
use rulekit::numbers::SHORT_BUFFER;
use saving::work::{put_work, work_at};

pub fn fresh_in(left: i64, bottom: i64, right: i64, top: i64, numbers: &mut [i64]) -> u8
    requires { length numbers.old ≡ state_numbers }
    ensures value { result ≡ fresh_number (rect left bottom right top) }
    ensures numbers_after { numbers.new ≡ saved_of (fresh_state (rect left bottom right top)) }
{
    let started = Machine::fresh(left, bottom, right, top);
    started.machine.save(numbers);
    started.number
}

pub fn take_in(numbers: &mut [i64], byte: u8) -> u8
    requires { Loadable numbers.old }
    ensures value { result ≡ take_number (loaded_of numbers.old) byte }
    ensures numbers_after { numbers.new ≡ saved_of (take_state (loaded_of numbers.old) byte) }
{
    let before = Machine::load(numbers);
    let taken = before.take(byte);
    taken.machine.save(numbers);
    taken.number
}

pub fn draw_in(numbers: &mut [i64], stroke: &mut [i64]) -> u8
    requires { Loadable numbers.old × (5 ≤ length stroke.old) }
    ensures value { result ≡ drawn_kind (draw_answer (loaded_of numbers.old)) }
    ensures numbers_after { numbers.new ≡ saved_of (draw_state (loaded_of numbers.old)) }
    ensures stroke_after { stroke.new ≡ over stroke.old 0 (drawn_numbers (draw_answer (loaded_of numbers.old))) }
{
    let before = Machine::load(numbers);
    let worked = before.draw();
    worked.machine.save(numbers);
    put_drawn(worked.drawn, stroke)
}

pub fn look_in(numbers: &[i64], seen: &mut [i64])
    requires { Loadable numbers.now × (5 ≤ length seen.old) }
    ensures { seen.new ≡ over seen.old 0 (look_numbers (look_at (loaded_of numbers.now))) }
{
    let machine = Machine::load(numbers);
    let look = machine.look();
    put_row(seen, 0, look_row(look));
}

// A fetch asks for the waiting work alone, and changes nothing else: so only the work's rows are read and written. What save writes, the other rows have already.
pub fn fetch_in(numbers: &mut [i64], out: &mut [u8], answer: &mut [u64]) -> u8
    requires { Loadable numbers.old × (saved_of (loaded_of numbers.old) ≡ numbers.old) × (1 ≤ length answer.old) }
    ensures value { result ≡ fetch_number (loaded_of numbers.old) (length out.old) }
    ensures numbers_after { numbers.new ≡ saved_of (fetch_state (loaded_of numbers.old) (length out.old)) }
    ensures out_after { out.new ≡ fetch_out (loaded_of numbers.old) out.old }
    ensures answer_after { answer.new ≡ over answer.old 0 (length (fetch_text (loaded_of numbers.old) (length out.old)) ∷ []) }
{
    match fetch(work_at(numbers), out) {
        Ok(length) => {
            answer[0] = length as u64;
            if length == 0 {
                return 0;
            }
            put_work(Work::Nothing, numbers);
            0
        }
        Err(_) => {
            answer[0] = 0;
            SHORT_BUFFER
        }
    }
}

pub fn feed_in(numbers: &mut [i64], bytes: &[u8], records: &mut [i64], answer: &mut [u64]) -> u8
    requires { Loadable numbers.old × (2 ≤ length answer.old) }
    ensures value { result ≡ (feed_of (loaded_of numbers.old) bytes.now (length records.old / 5)).number }
    ensures numbers_after { numbers.new ≡ saved_of (feed_of (loaded_of numbers.old) bytes.now (length records.old / 5)).state }
    ensures records_after { records.new ≡ laid_numbers (feed_of (loaded_of numbers.old) bytes.now (length records.old / 5)).strokes records.old }
    ensures answer_after { answer.new ≡ over answer.old 0 (counts_of (feed_of (loaded_of numbers.old) bytes.now (length records.old / 5))) }
{
    let before = Machine::load(numbers);
    let gathered = before.gather(bytes, 0, records);
    gathered.machine.save(numbers);
    put_counts(gathered.at, gathered.stored, answer);
    gathered.number
}

pub fn plot_in(numbers: &mut [i64], bytes: &[u8], records: &mut [i64], answer: &mut [u64]) -> u8
    requires { Loadable numbers.old × (2 ≤ length answer.old) }
    ensures value { result ≡ (plot_from (loaded_of numbers.old) bytes.now 0 (length records.old / 5)).number }
    ensures numbers_after { numbers.new ≡ saved_of (plot_from (loaded_of numbers.old) bytes.now 0 (length records.old / 5)).state }
    ensures records_after { records.new ≡ laid_marks (plot_from (loaded_of numbers.old) bytes.now 0 (length records.old / 5)).marks records.old }
    ensures answer_after { answer.new ≡ over answer.old 0 (mark_counts_of (plot_from (loaded_of numbers.old) bytes.now 0 (length records.old / 5))) }
{
    let before = Machine::load(numbers);
    let plotted = before.plot(bytes, 0, records);
    plotted.machine.save(numbers);
    put_counts(plotted.at, plotted.stored, answer);
    plotted.number
}
