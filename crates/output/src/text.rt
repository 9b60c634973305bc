// Text on its way to standard output as one value: where it goes, the buffer that gathers it, and how many bytes of that are used. What is said of the functions of
// this crate goes for its methods: from a write that fails on nothing is gathered, and what was written is a beginning of the text.
ghost use Rattle.std.specs.Prelude.{◌≡◌, IsErr, IsOk, ◌↔◌, ◌<◌, take};
ghost use Rattle.output.specs.Gathered.{room, Flushed};
ghost use Rattle.output.specs.Texts.{Puts};
ghost use Rattle.output.specs.Words.{trimmed};

use crate::{failed, finish, flush, put_bytes, put_words};
use std::fmt;

#[derive(Drop)]
pub struct Text<'a> {
    pub rt: &'a HostRuntime,
    pub buffer: [u8; 65536],
    pub used: usize,
}

impl<'a> Text<'a> {
    // Nothing is gathered yet.
    pub fn new(rt: &'a HostRuntime) -> Text<'a>
        ensures { result.used ≡ 0 }
    {
        Text {
            rt,
            buffer: io::large_buffer(),
            used: 0,
        }
    }

    // Whether a write failed is the answer, as of `write!`.
    fn told(&self) -> fmt::Result
        ensures { IsErr result ↔ (room < self.now.used) }
    {
        if failed(self.used) {
            return Err(fmt::Error);
        }
        Ok(())
    }

    // Bytes that need be no text.
    pub fn write_bytes(&mut self, bytes: &[u8]) -> fmt::Result
        ensures text { Puts bytes.now self.old.used self.old.buffer self.new.used self.new.buffer }
        ensures variant { IsErr result ↔ (room < self.new.used) }
    {
        self.used = put_bytes(self.rt, &mut self.buffer, self.used, bytes);
        self.told()
    }

    // A text without the blanks at its end.
    pub fn write_words(&mut self, text: &[u8]) -> fmt::Result
        ensures text { Puts (take (trimmed text.now) text.now) self.old.used self.old.buffer self.new.used self.new.buffer }
        ensures variant { IsErr result ↔ (room < self.new.used) }
    {
        self.used = put_words(self.rt, &mut self.buffer, self.used, text);
        self.told()
    }

    // Writes out what is gathered.
    pub fn flush(&mut self) -> fmt::Result
        ensures text { Flushed self.old.used self.new.used }
        ensures variant { IsErr result ↔ (room < self.new.used) }
    {
        self.used = flush(self.rt, &self.buffer, self.used);
        self.told()
    }

    // The end of a program's text: writes out what is gathered, and tells on standard error, under this name, if this or an earlier write failed.
    pub fn finish(&self, name: &[u8]) {
        finish(self.rt, &self.buffer, self.used, name);
    }
}

impl<'a> fmt::Write for Text<'a> {
    ghost write_str_gives = { λ before bytes after. Puts bytes before.used before.buffer after.used after.buffer };

    fn write_str(&mut self, s: &str) -> fmt::Result
        ensures ok { IsOk result → Puts s.now self.old.used self.old.buffer self.new.used self.new.buffer }
        ensures text { Puts s.now self.old.used self.old.buffer self.new.used self.new.buffer }
        ensures variant { IsErr result ↔ (room < self.new.used) }
    {
        self.write_bytes(s.as_bytes())
    }
}
