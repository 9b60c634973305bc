// The calls of a line of the program vectors: a machine goes through a sequence of bytes and marks, and the outcomes are printed.
#![tactic(auto)]

ghost use Rattle.std.specs.Prelude.{◌≡◌};

use machine::{Drawn, Machine};
use outcomes::replies::{BUFFER, MARKED, put_fetched};
use outcomes::{put_drawn, put_look, put_refusal};
use output::Text;
use sequences::codes::{Bytes, Code, Kind, bytes_into};
use std::fmt;

mod feeds;

// A machine on its way through a sequence: whether fetches and draws are held back, and the bytes taken.
#[derive(Clone, Copy)]
pub struct Course {
    pub machine: Machine,
    pub hold: bool,
    pub taken: u64,
}

impl Course {
    pub fn new(machine: Machine, hold: bool) -> Course
        ensures { result.machine ≡ machine }
    {
        Course {
            machine,
            hold,
            taken: 0,
        }
    }

    // Draws until nothing waits, and at most so many times.
    fn draw(&mut self, most: u64, out: &mut Text<'_>) -> fmt::Result {
        for _ in 0..most {
            let w = self.machine.draw();
            self.machine = w.machine;
            put_drawn(out, w.drawn)?;
            if matches!(w.drawn, Drawn::Idle) {
                break;
            }
        }
        Ok(())
    }

    // One fetch with a buffer of so many bytes, and a word for one where no reply waited.
    fn fetch(&mut self, room: usize, word: &str, out: &mut Text<'_>) -> fmt::Result {
        let mut buffer = MARKED;
        let f = self.machine.fetch(&mut buffer[..room.min(BUFFER)]);
        self.machine = f.machine;
        put_fetched(out, &buffer, f.length, f.number, word)
    }

    // One byte. After it, unless these are held back, a reply is fetched and all that waits is drawn.
    fn take(&mut self, byte: u8, out: &mut Text<'_>) -> fmt::Result {
        let t = self.machine.take(byte);
        self.machine = t.machine;
        self.taken = self.taken.wrapping_add(1);
        put_refusal(out, t.number, self.taken)?;
        if self.hold {
            return Ok(());
        }
        self.fetch(BUFFER, "", out)?;
        self.draw(u64::MAX, out)
    }

    // What look says, and whether a segment waits.
    pub fn look(&self, out: &mut Text<'_>) -> fmt::Result {
        let waits = !matches!(self.machine.draw().drawn, Drawn::Idle);
        put_look(out, self.machine.look(), waits)
    }

    // A feed of the bytes that the codes after it begin with.
    fn feed_codes(&mut self, rest: &[Code], room: usize, out: &mut Text<'_>) -> fmt::Result {
        let mut bytes = Bytes::new();
        bytes_into(rest, Kind::Fed, &mut bytes);
        self.feed(&bytes, room, out)
    }

    // One code, and those after it, of which a feed has its bytes.
    fn step(&mut self, code: Code, rest: &[Code], out: &mut Text<'_>) -> fmt::Result {
        match code {
            Code::Plain(byte) => self.take(byte, out),
            Code::Hold => {
                self.hold = true;
                Ok(())
            }
            Code::Draw => self.draw(1, out),
            Code::Look => self.look(out),
            Code::Fetch(room) => self.fetch(usize::from(room), " len0", out),
            Code::Feed(room) => self.feed_codes(rest, usize::from(room), out),
            Code::Fed(_) => Ok(()),
        }
    }

    pub fn run(&mut self, codes: &[Code], out: &mut Text<'_>) -> fmt::Result {
        for (i, code) in codes.iter().enumerate() {
            self.step(*code, &codes[i + 1..], out)?;
        }
        Ok(())
    }
}
