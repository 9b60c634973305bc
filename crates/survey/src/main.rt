// The program survey: HP-GL in, one page of text on standard output: what is painted, what is cut off, what is refused, and whether the drawing is fit to
// paint.
#![tactic(auto)]

ghost use Rattle.std.specs.Prelude.{false, ◌≡◌};
ghost use Rattle.hpgl.specs.Machine.{occupied};

use arguments::desk::{asked, ready, refused, word_at};
use machine::Machine;

mod page;

use page::page;
use streams::{Source, Stream};
use surveying::{Surveyed, survey};

// Surveys the input. A file in the place of standard input is told by its name.
fn named(rt: &HostRuntime, machine: Machine, file: usize, source: &mut Stream<Source>) -> Surveyed
    requires { occupied machine.state.work ≡ false }
{
    if file == 0 {
        return survey(rt, machine, b"standard input", source);
    }
    let mut word = io::buffer();
    let n = word_at(rt, file, &mut word);
    survey(rt, machine, &word[..n], source)
}

fn main(rt: HostRuntime) {
    let r = asked(&rt);
    let Some(mut source) = ready(
        &rt,
        b"survey",
        b"Reads HP-GL and prints one page: strokes and metres by pen, what the limits cut off, what is refused, and whether the drawing is fit to paint.\n",
        r,
    ) else {
        return;
    };
    let hard = r.limits;
    let started = Machine::fresh(hard.left, hard.bottom, hard.right, hard.top);
    if started.number != 0 {
        refused(&rt, b"survey");
        return;
    }
    let machine = started.machine;
    let surveyed = named(&rt, machine, r.file, &mut source);
    page(&rt, hard, surveyed, r.scale);
}
