// The calls, each as the crate hpgl says.
ghost use Rattle.std.specs.Prelude.{◌≡◌, ◌/◌, length, drop};
ghost use Rattle.hpgl.specs.Machine as M;
ghost use Rattle.hpgl.specs.Values.{drawn_values};
ghost use Rattle.hpgl.specs.Segment.{segment_of, draw_values};
ghost use Rattle.feeding.specs.Feed.{feed_from, laid_numbers};
ghost use Rattle.feeding.specs.Plot.{plot_from, laid_marks};
ghost use Rattle.hpgl.specs.Valid.{Usable};
ghost use Rattle.saved.specs.Saved.{state_numbers, saved_of, loaded_of};
ghost use Rattle.machine.specs.Calls.{started_by, started_of, taken_by, taken_of, worked_by, worked_of, fetched_by, fetched_from};
ghost use Rattle.machine.specs.Loadable.{Loadable};
ghost use Rattle.machine.specs.Run.{ran_by, run_of};
ghost use Rattle.machine.specs.Gather.{gathered_of, plotted_of, gathered_by};

use super::{Drawn, Fetched, Gathered, Look, Machine, Ran, Segment, Started, Taken, Worked};
use clip::Rect;
use gathering::{Stopped, gather};
use hpgl::{State, Work};
use queue::drawing::{draw_first, edge_place, first_segment, work_after};
use queue::storing::waiting;
use replies::writing::fetch;
use rulekit::numbers::{BAD_LIMITS, BUSY, LIST_FULL, SHORT_BUFFER};
use rulekit::places::located;
use saving::{load, save};
use settings::{fresh_state, good_limits};
use sines::table;

// The answer of a feed or a plot, which goes as far as the loop of gathering went.
fn answered(g: Stopped) -> Gathered
    requires { Usable g.state }
    ensures { gathered_by result ≡ g }
{
    Gathered {
        machine: Machine { state: g.state },
        at: g.at,
        stored: g.stored,
        number: g.number,
    }
}

impl Machine {
    // A new machine, on paper with these hard limits.
    pub fn fresh(left: i64, bottom: i64, right: i64, top: i64) -> Started
        ensures { started_by result ≡ started_of (M.rect left bottom right top) }
    {
        let hard = Rect {
            left,
            bottom,
            right,
            top,
        };
        let machine = Machine {
            state: fresh_state(hard),
        };
        if good_limits(hard) {
            return Started { machine, number: 0 };
        }
        Started {
            machine,
            number: BAD_LIMITS,
        }
    }

    // One byte: a run of one.
    pub fn take(self, byte: u8) -> Taken
        ensures { taken_by result ≡ taken_of self.state byte }
    {
        if waiting(self.state.work) == 0 {
            let ran = self.run(&[byte; 1], 0);
            return Taken {
                machine: ran.machine,
                number: ran.number,
            };
        }
        Taken {
            machine: self,
            number: BUSY,
        }
    }

    // Works off one waiting segment. What it answers is also told in 01's values: a stroke (pen, x0, y0, x1, y1), hidden, or idle.
    pub fn draw(self) -> Worked
        ensures value { worked_by result ≡ worked_of self.state }
        ensures drawn_value { drawn_values result.drawn ≡ draw_values self.state }
    {
        let m = self.state;
        let sines = table();
        let edge = m.store.edges[edge_place(m.work)];
        let drawn = draw_first(m.core, edge, m.work, &sines);
        let work = work_after(m.work);
        Worked {
            machine: Machine {
                state: State { work, ..m },
            },
            drawn,
        }
    }

    // The segment that waits first, before it is clipped. It changes nothing.
    pub fn segment(self) -> Segment
        ensures { result ≡ segment_of self.state }
    {
        let m = self.state;
        let sines = table();
        let edge = m.store.edges[edge_place(m.work)];
        first_segment(m.core, edge, m.work, &sines)
    }

    // Where the carriage is, and with what. It changes nothing.
    pub fn look(self) -> Look
        ensures { result ≡ M.look_at self.state }
    {
        let core = self.state.core;
        let pen = core.carriage.pen;
        let location = located(core.settings, core.carriage.position);
        Look {
            location,
            pen: pen.number,
            down: pen.down,
            bytes: core.carriage.polygon.bytes,
        }
    }

    // Writes the reply that waits, if one does, into a lent buffer from its start on; 31 if the buffer is shorter.
    pub fn fetch(self, out: &mut [u8]) -> Fetched
        ensures value { fetched_by result ≡ fetched_from self.state (length out.old) }
        ensures out_after { out.new ≡ M.fetch_out self.state out.old }
    {
        let m = self.state;
        match fetch(m.work, out) {
            Ok(length) => {
                if length == 0 {
                    return Fetched {
                        machine: self,
                        length: 0,
                        number: 0,
                    };
                }
                Fetched {
                    machine: Machine {
                        state: State {
                            work: Work::Nothing,
                            ..m
                        },
                    },
                    length,
                    number: 0,
                }
            }
            Err(_) => Fetched {
                machine: self,
                length: 0,
                number: SHORT_BUFFER,
            },
        }
    }

    // Bytes from a place of the input on, up to the first that is refused or makes a segment wait.
    pub fn run(self, bytes: &[u8], from: usize) -> Ran
        ensures { ran_by result ≡ run_of self.state (drop from bytes.now) from }
    {
        // with no room for a stroke, feed stops where a segment waits
        let mut none = [0; 1];
        let g = gather(self.state, bytes, from, &mut none, false);
        let machine = Machine { state: g.state };
        if g.number == LIST_FULL {
            return Ran {
                machine,
                at: g.at,
                number: 0,
            };
        }
        Ran {
            machine,
            at: g.at,
            number: g.number,
        }
    }

    // Feed into a lent list of plain numbers, five for each stroke: pen, x0, y0, x1, y1.
    pub fn gather(self, bytes: &[u8], from: usize, numbers: &mut [i64]) -> Gathered
        ensures value { gathered_by result ≡ gathered_of (feed_from self.state (drop from bytes.now) from (length numbers.old / 5)) }
        ensures numbers_after { numbers.new ≡ laid_numbers (feed_from self.state (drop from bytes.now) from (length numbers.old / 5)).strokes numbers.old }
    {
        answered(gather(self.state, bytes, from, numbers, false))
    }

    // A feed that goes on after a refused byte, and stores the refusal among the strokes: 0, its number, its place counted from 1, 0, 0.
    pub fn plot(self, bytes: &[u8], from: usize, numbers: &mut [i64]) -> Gathered
        ensures value { gathered_by result ≡ plotted_of (plot_from self.state (drop from bytes.now) from (length numbers.old / 5)) }
        ensures numbers_after { numbers.new ≡ laid_marks (plot_from self.state (drop from bytes.now) from (length numbers.old / 5)).marks numbers.old }
    {
        answered(gather(self.state, bytes, from, numbers, true))
    }

    // Writes the machine over a lent list of numbers, as a caller in another language keeps it.
    pub fn save(self, numbers: &mut [i64])
        requires { length numbers.old ≡ state_numbers }
        ensures { numbers.new ≡ saved_of self.state }
    {
        save(self.state, numbers);
    }

    // The machine that a list of numbers holds, which has to be one that may be used, as those are that `save` writes. The crate soundness decides it of any list.
    pub fn load(numbers: &[i64]) -> Machine
        requires { Loadable numbers.now }
        ensures { result.state ≡ loaded_of numbers.now }
    {
        Machine {
            state: load(numbers),
        }
    }
}
