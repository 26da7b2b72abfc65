//! A sink that is watched.

use crate::seen::Seen;
use streams::{Failed, Sink};

/// A sink over a sink, which takes what that takes, and notes it where that is to be seen.
#[derive(Drop)]
pub struct Watched<'l, W> {
    writer: W,
    seen: Option<&'l Seen>,
}

impl<'l, W> Watched<'l, W> {
    /// Over this sink.
    pub fn new(writer: W, seen: Option<&'l Seen>) -> Watched<'l, W> {
        Watched { writer, seen }
    }
}

impl<'l, W: Sink> Sink for Watched<'l, W> {
    ghost taken = { λ s. W.taken s.writer };

    ghost failed_writes = { λ s. W.failed_writes s.writer };

    fn write(&mut self, buf: &[u8]) -> Result<usize, Failed> {
        let Some(seen) = self.seen else {
            return self.writer.write(buf);
        };
        seen.begin(buf);
        let taken = self.writer.write(buf)?;
        seen.add(taken);
        Ok(taken)
    }

    fn failures(&self) -> u64 {
        self.writer.failures()
    }

    fn begins(&mut self) {
        self.writer.begins();
    }
}
