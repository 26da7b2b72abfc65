//! A sink that adds lines to a response.
ghost use Rattle.std.specs.Prelude.{◌≡◌, ℕ, ◌+◌, ◌<◌, ◌≤◌, List, Option, length, IfOk, OnOk, OnErr, drop, take};
ghost use Rattle.std.specs.Io.KnownBytes.{Appends, WriteAppends};
ghost use Rattle.streams.specs.Counts.{CountsFailure};
ghost use Rattle.streams.specs.Writes.{Writes};
ghost use Rattle.origin_policy.specs.Answers.{allowing};

use crate::lines::{allowing_len, allowing_part};
use crate::places::up_to_line_feed;
use std::marker::{Brand, PhantomData};
use streams::{Failed, Sink};

/// What is known of a response before it begins.
pub(crate) trait Start {
    /// What the sink had taken.
    ghost taken: { Option (List ℕ) };

    /// The lines that are added.
    ghost lines: { List ℕ };
}

impl Start for Brand {
    ghost use Rattle.std.specs.Prelude.{None, []};

    ghost taken = { None };

    ghost lines = { [] };
}

/// How much of a response was written.
#[derive(Clone, Copy, Debug, PartialEq, Eq)]
pub(crate) enum Phase {
    /// A part of its first line.
    InLine,
    /// Its first line, and so many bytes of the lines that are added.
    Lines(usize),
    /// Its first line, the lines that are added, and what came since.
    Behind,
}

/// A sink over a sink, which adds to a response, behind its first line, the lines by which a page of an origin may read it. What it
/// has taken is the response without them. `K` stands for what is known before.
pub(crate) struct Extended<'o, W: Sink, K: Start> {
    pub(crate) writer: W,
    pub(crate) origin: &'o [u8],
    pub(crate) phase: Phase,
    pub(crate) of: PhantomData<K>,
    ghost lines: { allowing origin.now ≡ K.lines },
}

impl<'o, W: Sink, K: Start> Extended<'o, W, K> {
    ghost use Rattle.http_guard.specs.Weaving.{lines_left, unwoven};

    /// The sink itself.
    pub(crate) fn into_writer(self) -> W
        ensures { result ≡ self.entry.writer }
    {
        let Extended {
            writer,
            origin: _,
            phase: _,
            of: _,
        } = self;
        writer
    }

    /// Writes what lacks of the lines when the response has ended.
    ///
    /// # Errors
    ///
    /// A write failed. A beginning of them may have been written.
    pub(crate) fn finish(&mut self) -> Result<(), Failed>
        ensures written { Writes (W.taken self.old.writer) (W.taken self.new.writer) result
            (lines_left K.lines self.old.phase) }
        ensures failures { CountsFailure (W.failed_writes self.old.writer)
            (W.failed_writes self.new.writer) result }
    {
        let len = allowing_len(self.origin);
        match self.phase {
            Phase::InLine => self.write_lines(0, len),
            Phase::Lines(at) => self.write_lines(at, len),
            Phase::Behind => Ok(()),
        }
    }

    /// Writes the front of these bytes, no further than the end of the first line.
    fn write_line(&mut self, buf: &[u8]) -> Result<usize, Failed>
        requires some { 0 < length buf.now }
        requires phase { self.old.phase ≡ Phase.InLine }
        ensures some { IfOk result (λ n. 0 < n) }
        ensures within { IfOk result (λ n. n ≤ length buf.now) }
        ensures bytes { WriteAppends (unwoven K.lines self.old.phase K.taken (W.taken self.old.writer))
            (unwoven K.lines self.new.phase K.taken (W.taken self.new.writer)) result buf.now }
        ensures failures { CountsFailure (W.failed_writes self.old.writer)
            (W.failed_writes self.new.writer) result }
    {
        let line = up_to_line_feed(buf);
        let Ok(taken) = self.writer.write(line) else {
            return Err(Failed);
        };
        if line[taken - 1] == b'\n' {
            self.phase = Phase::Lines(0);
        }
        Ok(taken)
    }

    /// Writes the lines, which have so many bytes, from a place on.
    fn write_lines(&mut self, from: usize, len: usize) -> Result<(), Failed>
        requires { len ≡ length K.lines }
        ensures written { OnOk result (Appends (W.taken self.old.writer) (W.taken self.new.writer) (drop from K.lines)
            × (self.new.phase ≡ Phase.Behind)) }
        ensures cut { OnErr result ((n : ℕ) × (n < length (drop from K.lines))
            × Appends (W.taken self.old.writer) (W.taken self.new.writer) (take n (drop from K.lines))
            × ((self.old.phase ≡ Phase.Lines from) → self.new.phase ≡ Phase.Lines (from + n))) }
        ensures failures { CountsFailure (W.failed_writes self.old.writer)
            (W.failed_writes self.new.writer) result }
    {
        let mut at = from;
        while at < len {
            let Ok(taken) = self.writer.write(allowing_part(self.origin, at)) else {
                return Err(Failed);
            };
            at += taken;
            self.phase = Phase::Lines(at);
        }
        self.phase = Phase::Behind;
        Ok(())
    }

    /// Writes the front of what is behind the lines.
    fn write_behind(&mut self, buf: &[u8]) -> Result<usize, Failed>
        requires some { 0 < length buf.now }
        requires phase { self.old.phase ≡ Phase.Behind }
        ensures some { IfOk result (λ n. 0 < n) }
        ensures within { IfOk result (λ n. n ≤ length buf.now) }
        ensures bytes { WriteAppends (unwoven K.lines self.old.phase K.taken (W.taken self.old.writer))
            (unwoven K.lines self.new.phase K.taken (W.taken self.new.writer)) result buf.now }
        ensures failures { CountsFailure (W.failed_writes self.old.writer)
            (W.failed_writes self.new.writer) result }
    {
        self.writer.write(buf)
    }
}

impl<'o, W: Sink, K: Start> Sink for Extended<'o, W, K> {
    ghost use Rattle.http_guard.specs.Weaving.{unwoven};

    ghost taken = { λ s. unwoven K.lines s.phase K.taken (W.taken s.writer) };

    ghost failed_writes = { λ s. W.failed_writes s.writer };

    fn write(&mut self, buf: &[u8]) -> Result<usize, Failed> {
        match self.phase {
            Phase::InLine => self.write_line(buf),
            Phase::Lines(at) => {
                let len = allowing_len(self.origin);
                let Ok(()) = self.write_lines(at, len) else {
                    return Err(Failed);
                };
                self.write_behind(buf)
            }
            Phase::Behind => self.write_behind(buf),
        }
    }

    fn failures(&self) -> u64 {
        self.writer.failures()
    }

    fn begins(&mut self) {
        self.writer.begins();
    }
}
