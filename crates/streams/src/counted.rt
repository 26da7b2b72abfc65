//! Readers and writers of `std` whose failures are counted.
ghost use Rattle.std.specs.Prelude.{◌≡◌, ◌-◌, ◌<◌, ◌≤◌, ◌^◌, length, IfOk};
ghost use Rattle.std.specs.Io.KnownBytes.{ReadConsumes, WriteAppends};
ghost use Rattle.streams.specs.Counts.{CountRose};

use crate::traits::{Failed, Sink, Source};
use std::io::{self, ErrorKind, Read, Write};

/// How often a call is made in all that is interrupted each time.
const MAX_TRIES: u32 = 1000;

/// A reader or a writer of `std` as a source or a sink.
///
/// It gives at most 2^64 - 1 bytes, and fails from then on. A write that takes nothing is a
/// failure. A call that a signal interrupts, as when a stopped program goes on, is made again, up to
/// [`MAX_TRIES`] times in all. It does not flush, so a writer that keeps bytes back delays them.
#[derive(Debug, Drop)]
pub struct Stream<T> {
    inner: T,
    failures: u64,
    budget: u64,
    ghost countable: { budget < 2 ^ 64 },
}

impl<T> Stream<T> {
    ghost use Rattle.std.specs.Borrow.{sem};
    ghost use Rattle.streams.specs.Stream.{inner_of, failures_of, budget_of};
    ghost use Rattle.streams.specs.Lending.{LendsInner};

    /// Over this reader or writer, of whose calls none has failed yet.
    pub fn new(inner: T) -> Stream<T>
        ensures inner { inner_of result ≡ inner }
        ensures failures { failures_of result ≡ 0 }
        ensures budget { budget_of result ≡ 2 ^ 64 - 1 }
    {
        Stream {
            inner,
            failures: 0,
            budget: u64::MAX,
        }
    }

    /// The reader or writer.
    pub fn into_inner(self) -> T
        ensures { result ≡ inner_of self }
    {
        let Stream { inner, .. } = self;
        inner
    }

    /// The reader or writer, to be told of what its calls do next.
    pub fn inner_mut(&mut self) -> &mut T
        ensures* writes_back { sem 𝓛 (LendsInner T.row self.entry result) }
        ensures inner { result.now ≡ inner_of self.old }
    {
        &mut self.inner
    }

    /// Counts a failure.
    fn fail(&mut self) -> Failed
        ensures inner { inner_of self.new ≡ inner_of self.old }
        ensures failures { CountRose (failures_of self.old) (failures_of self.new) }
        ensures budget { budget_of self.new ≡ budget_of self.old }
    {
        self.failures = self.failures.saturating_add(1);
        Failed
    }
}

impl<R: Read> Source for Stream<R> {
    ghost left = { λ s. R.remaining s.inner };

    ghost failed_reads = { λ s. s.failures };

    ghost budget = { λ s. s.budget };

    ghost is_countable = { λ s. s.countable };

    fn read(&mut self, buf: &mut [u8]) -> Result<usize, Failed> {
        if self.budget == 0 {
            return Err(self.fail());
        }
        let room = buf.len().min(self.budget as usize);
        match read_uninterrupted(&mut self.inner, &mut buf[..room]) {
            Ok(n) => {
                self.budget -= n as u64;
                Ok(n)
            }
            Err(_) => Err(self.fail()),
        }
    }

    fn failures(&self) -> u64 {
        self.failures
    }
}

impl<W: Write> Sink for Stream<W> {
    ghost taken = { λ s. W.contents s.inner };

    ghost failed_writes = { λ s. s.failures };

    fn write(&mut self, buf: &[u8]) -> Result<usize, Failed> {
        match write_uninterrupted(&mut self.inner, buf) {
            Ok(0) | Err(_) => Err(self.fail()),
            Ok(n) => Ok(n),
        }
    }

    fn failures(&self) -> u64 {
        self.failures
    }
}

/// Reads, again where a signal interrupts the read, up to [`MAX_TRIES`] times in all.
pub fn read_uninterrupted<R: Read>(reader: &mut R, buf: &mut [u8]) -> io::Result<usize>
    ensures within { IfOk result (λ n. n ≤ length buf.new) }
    ensures bytes { ReadConsumes (R.remaining reader.old) (R.remaining reader.new) result buf.new }
{
    for _ in 1..MAX_TRIES {
        match reader.read(buf) {
            Err(error) if error.kind() == ErrorKind::Interrupted => {}
            outcome => return outcome,
        }
    }
    reader.read(buf)
}

/// Writes, again where a signal interrupts the write, up to [`MAX_TRIES`] times in all.
pub fn write_uninterrupted<W: Write>(writer: &mut W, buf: &[u8]) -> io::Result<usize>
    ensures within { IfOk result (λ n. n ≤ length buf.now) }
    ensures bytes { WriteAppends (W.contents writer.old) (W.contents writer.new) result buf.now }
{
    for _ in 1..MAX_TRIES {
        match writer.write(buf) {
            Err(error) if error.kind() == ErrorKind::Interrupted => {}
            outcome => return outcome,
        }
    }
    writer.write(buf)
}
