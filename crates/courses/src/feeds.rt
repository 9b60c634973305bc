// The call feed, into a lent list of plain numbers, five for each stroke, with its outcomes.

use crate::Course;
use machine::Gathered;
use outcomes::records::{MARKED, RECORDS, put_records, put_stop};
use outcomes::replies::BUFFER;
use output::Text;
use std::fmt;
use std::fmt::Write;

impl Course {
    fn gather(&mut self, bytes: &[u8], from: usize, numbers: &mut [i64]) -> Gathered {
        let g = self.machine.gather(bytes, from, numbers);
        self.machine = g.machine;
        g
    }

    // One feed into a list of so many records: its answer, and all of these records.
    pub fn feed_once(&mut self, bytes: &[u8], room: usize, out: &mut Text<'_>) -> fmt::Result {
        let mut numbers = MARKED;
        let records = room.min(RECORDS);
        let g = self.gather(bytes, 0, &mut numbers[..records * 5]);
        write!(out, " {} {} {} |", g.at, g.stored, g.number)?;
        put_records(out, &numbers, records)
    }

    // One feed within a sequence: its answer, and its strokes.
    pub fn feed(&mut self, bytes: &[u8], room: usize, out: &mut Text<'_>) -> fmt::Result {
        let mut numbers = MARKED;
        let g = self.gather(bytes, 0, &mut numbers[..room.min(RECORDS) * 5]);
        write!(out, " ({},{},{})", g.at, g.stored, g.number)?;
        put_records(out, &numbers, g.stored)
    }

    // Feed after feed, as the program strokes does: the strokes of each, a refusal, and the reply that waits after it. A proved loop has to end: this one does
    // after a number of turns that no run uses up.
    pub fn feed_all(&mut self, bytes: &[u8], out: &mut Text<'_>) -> fmt::Result {
        let mut at = 0;
        for _ in 0..u64::MAX {
            let mut numbers = MARKED;
            let g = self.gather(bytes, at, &mut numbers);
            at = g.at;
            put_records(out, &numbers, g.stored)?;
            put_stop(out, g.number, at)?;
            self.fetch(BUFFER, "", out)?;
            if g.number == 0 {
                break;
            }
        }
        Ok(())
    }
}
