// A reader and a writer that fail now and then: what passes by is tried again, and what does not is told with its error, and nothing is lost or doubled.
ghost use Rattle.std.specs.Prelude.{IfOk, ◌≤◌};

use super::{Stream, read, read_full, words_of, write_all};
use std::io;
use std::io::{Error, Read, Write};

const INTERRUPTED: i32 = 4;

const AGAIN: i32 = 11;

const BROKEN: i32 = 5;

// Each call answers the next number: so many bytes at most, or, below 0, the error with that number.
#[derive(Drop)]
struct Halting {
    answers: &'static [i32],
    moved: u8,
}

impl Halting {
    fn next(&mut self, most: usize) -> io::Result<usize>
        ensures { IfOk result (λ n. n ≤ most) }
    {
        let Some((first, others)) = self.answers.split_first() else {
            return Ok(0);
        };
        self.answers = others;
        if *first < 0 {
            return Err(Error::from_raw_os_error(first.saturating_neg()));
        }
        Ok(most.min(*first as usize))
    }
}

impl Read for Halting {
    fn read(&mut self, buf: &mut [u8]) -> io::Result<usize> {
        let n = self.next(buf.len())?;
        for byte in &mut buf[..n] {
            self.moved = self.moved.saturating_add(1);
            *byte = self.moved;
        }
        Ok(n)
    }
}

impl Write for Halting {
    fn write(&mut self, buf: &[u8]) -> io::Result<usize> {
        let n = self.next(buf.len())?;
        for byte in &buf[..n] {
            if *byte == self.moved.saturating_add(1) {
                self.moved = *byte;
            }
        }
        Ok(n)
    }

    fn flush(&mut self) -> io::Result<()> {
        Ok(())
    }
}

#[test]
fn reads_on(rt: HostRuntime) {
    let mut file = Stream::new(Halting {
        answers: &[-INTERRUPTED, -AGAIN, 2, 1, -AGAIN, 9],
        moved: 0,
    });
    let mut block = [0u8; 5];
    let got = read(&mut file, &mut block);
    assert_eq!(rt; (got.count, got.good), (2, true));
    let got = read_full(&mut file, &mut block);
    assert_eq!(rt; (got.count, got.good), (5, true));
    assert_eq!(rt; block, [3, 4, 5, 6, 7]);
    let got = read_full(&mut file, &mut block);
    assert_eq!(rt; (got.count, got.good), (0, true));
}

#[test]
fn a_read_fails(rt: HostRuntime) {
    let mut file = Stream::new(Halting {
        answers: &[3, -BROKEN, 2],
        moved: 0,
    });
    let mut block = [0u8; 5];
    let got = read_full(&mut file, &mut block);
    assert_eq!(rt; (got.count, got.good), (3, false));
    assert_eq!(rt; file.error, BROKEN);
    assert_eq!(rt; block, [1, 2, 3, 0, 0]);
}

#[test]
fn writes_on(rt: HostRuntime) {
    let mut file = Stream::new(Halting {
        answers: &[1, -INTERRUPTED, -AGAIN, 2, 9],
        moved: 0,
    });
    assert!(rt; write_all(&mut file, &[1, 2, 3, 4]));
    assert_eq!(rt; file.inner.moved, 4);
}

#[test]
fn a_write_fails(rt: HostRuntime) {
    let mut file = Stream::new(Halting {
        answers: &[1, -BROKEN, 9],
        moved: 0,
    });
    assert!(rt; !write_all(&mut file, &[1, 2, 3, 4]));
    assert_eq!(rt; (file.inner.moved, file.error), (1, BROKEN));
}

#[test]
fn tells_the_words_alone(rt: HostRuntime) {
    let mut words = [0u8; 256];
    let n = words_of(BROKEN, &mut words);
    assert_eq!(rt; &words[..n], &b"Input/output error"[..]);
}
