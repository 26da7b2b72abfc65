//! What gives bytes, and what takes them.
ghost use Rattle.std.specs.Prelude.{◌≡◌, ℕ, ◌+◌, ◌<◌, ◌≤◌, ◌^◌, List, Option, length, IfOk, MatchResult};
ghost use Rattle.std.specs.Io.KnownBytes.{ReadConsumes, WriteAppends};
ghost use Rattle.streams.specs.Counts.{CountsFailure};

use thiserror::Error;

/// A read or a write failed, and the count of failures of its source or sink reports so.
#[derive(Clone, Copy, Debug, PartialEq, Eq, Error)]
#[error("a read or a write failed")]
pub struct Failed;

/// Where bytes come from.
pub trait Source {
    /// The bytes that reads will give from here on, where they are known.
    ghost left: { Self → Option (List ℕ) };

    /// How many reads have failed.
    ghost failed_reads: { Self → ℕ };

    /// How many more bytes may come at most: each that comes takes one away.
    ghost budget: { Self → ℕ };

    /// Puts bytes into the front of `buf`, and answers how many: none only at the end, or where
    /// `buf` has no room.
    ///
    /// # Errors
    ///
    /// The read failed. No byte came, and the count of failures reports so.
    fn read(&mut self, buf: &mut [u8]) -> Result<usize, Failed>
        ensures within { IfOk result (λ n. n ≤ length buf.new) }
        ensures bytes { ReadConsumes (left self.old) (left self.new) result buf.new }
        ensures failures { CountsFailure (failed_reads self.old) (failed_reads self.new) result }
        ensures spent { MatchResult result (λ n. budget self.new + n ≡ budget self.old)
            (λ _. budget self.new ≡ budget self.old) };

    /// How many reads have failed, or 2^64 - 1 where more have.
    fn failures(&self) -> u64
        ensures { result ≡ failed_reads self.now };

    /// Says that reads are for a next request, and whether some of it has come. A source that gives up
    /// a peer in time counts the time from here. What is read before the first call is for a request of
    /// which nothing has come.
    fn awaits(&mut self, _begun: bool)
        ensures left { left self.new ≡ left self.old }
        ensures failures { failed_reads self.new ≡ failed_reads self.old }
        ensures budget { budget self.new ≡ budget self.old }
    {}

    /// So few bytes come that 64 bits count them.
    ghost is_countable: { (source : Self) → budget source < 2 ^ 64 };
}

/// Where bytes go to.
pub trait Sink {
    /// The bytes taken so far, where they are known.
    ghost taken: { Self → Option (List ℕ) };

    /// How many writes have failed.
    ghost failed_writes: { Self → ℕ };

    /// Takes bytes from the front of `buf`, at least one, and answers how many.
    ///
    /// # Errors
    ///
    /// The write failed. No byte was taken, and the count of failures reports so.
    fn write(&mut self, buf: &[u8]) -> Result<usize, Failed>
        requires { 0 < length buf.now }
        ensures some { IfOk result (λ n. 0 < n) }
        ensures within { IfOk result (λ n. n ≤ length buf.now) }
        ensures bytes { WriteAppends (taken self.old) (taken self.new) result buf.now }
        ensures failures { CountsFailure (failed_writes self.old) (failed_writes self.new) result };

    /// How many writes have failed, or 2^64 - 1 where more have.
    fn failures(&self) -> u64
        ensures { result ≡ failed_writes self.now };

    /// Says that a next text is written, as a response or a piece of a feed. A sink that gives up a peer
    /// in time counts the time from its first write.
    fn begins(&mut self)
        ensures taken { taken self.new ≡ taken self.old }
        ensures failures { failed_writes self.new ≡ failed_writes self.old }
    {}
}
