//! The end of a socket that is read.
ghost use Rattle.std.specs.Prelude.{◌≡◌, ◌-◌, ◌≤◌, ◌^◌, None, IfOk, length};

use crate::deadlines::{Ending, after, is_late, left_until};
use crate::flag::is_set;
use crate::pace::{GRACE_SECONDS, Pace};
use crate::timed::Timed;
use std::io::{Error, ErrorKind, Read, Result as IoResult};
use std::sync::atomic::AtomicBool;
use std::time::{Clock, Duration, Instant};
use streams::{Failed, Source, Stream};

/// So many slices are waited for in a row at most: some eleven days.
const MOST_SLICES: u64 = 10_000_000;

/// What is read next.
#[derive(Clone, Copy, Debug, PartialEq, Eq)]
enum Awaited {
    /// The first byte of a request.
    First,
    /// The rest of a request, for which nothing was read yet.
    Rest,
    /// The rest of a request, until then.
    RestBy(Instant),
}

/// How many more requests are read, the one that is awaited among them.
#[derive(Clone, Copy, Debug, PartialEq, Eq)]
enum Requests {
    /// All that come.
    Any,
    /// The one that is awaited.
    Last,
    /// None.
    NoMore,
}

impl Requests {
    /// As many where the next one is awaited.
    fn next(self, is_over: bool) -> Requests {
        match self {
            Requests::Any if !is_over => Requests::Any,
            Requests::Any => Requests::Last,
            Requests::Last | Requests::NoMore => Requests::NoMore,
        }
    }
}

/// A socket whose reads end in time.
#[derive(Drop)]
struct Waiting<'c, T, C> {
    socket: T,
    clock: &'c C,
    pace: Pace,
    ending: Ending<'c>,
    /// While it is set a next request is not waited for.
    crowded: Option<&'c AtomicBool>,
    awaited: Awaited,
    requests: Requests,
    told: Option<Duration>,
    /// Whether the input ended where no byte of a request had come in time.
    silent: bool,
}

impl<'c, T, C> Waiting<'c, T, C> {
    /// Over this socket, whose first request is awaited.
    fn new(
        socket: T,
        clock: &'c C,
        pace: Pace,
        over: Option<&'c AtomicBool>,
        crowded: Option<&'c AtomicBool>,
    ) -> Waiting<'c, T, C> {
        Waiting {
            socket,
            clock,
            pace,
            ending: Ending::new(over, Duration::from_secs(GRACE_SECONDS)),
            crowded,
            awaited: Awaited::First,
            requests: Requests::Any,
            told: None,
            silent: false,
        }
    }

    /// A next request is awaited, of which something has come or not.
    fn awaits(&mut self, begun: bool) {
        self.awaited = if begun { Awaited::Rest } else { Awaited::First };
        self.requests = self.requests.next(self.ending.has_come());
        if !begun && is_set(self.crowded) {
            self.requests = Requests::NoMore;
            self.silent = true;
        }
    }
}

impl<'c, T: Read + Timed, C: Clock> Waiting<'c, T, C> {
    /// Reads, and waits so long at most, which the socket may know already.
    fn read_within(&mut self, time: Duration, buf: &mut [u8]) -> IoResult<usize>
        ensures within { IfOk result (λ n. n ≤ length buf.new) }
    {
        if self.told != Some(time) {
            self.socket.read_within(time)?;
            self.told = Some(time);
        }
        self.socket.read(buf)
    }

    /// Reads the first bytes of a request. Where a flag may end the input, it is looked at after each slice of the
    /// time in which nothing comes.
    fn read_first(&mut self, buf: &mut [u8]) -> IoResult<usize>
        ensures within { IfOk result (λ n. n ≤ length buf.new) }
    {
        let mut left = self.pace.idle;
        for _ in 0..MOST_SLICES {
            let slice = self.ending.slice(left);
            match self.read_within(slice, buf) {
                Err(error) if is_late(&error) => {
                    left = left.saturating_sub(slice);
                    if left.is_zero() || self.ending.has_come() {
                        return Err(error);
                    }
                }
                outcome => return outcome,
            }
        }
        self.read_within(left, buf)
    }

    /// Reads more of a request that has begun. Where a flag may end the input, it is looked at after each slice of the time in
    /// which nothing comes.
    fn read_rest(&mut self, buf: &mut [u8]) -> IoResult<usize>
        ensures within { IfOk result (λ n. n ≤ length buf.new) }
    {
        for _ in 0..MOST_SLICES {
            let left = self.rest_left()?;
            let slice = self.ending.slice(left);
            match self.read_within(slice, buf) {
                Err(error) if is_late(&error) && slice < left => {}
                outcome => return outcome,
            }
        }
        Err(Error::from(ErrorKind::TimedOut))
    }

    /// How long the rest of the request is still waited for, from the first read for it on.
    fn rest_left(&mut self) -> IoResult<Duration> {
        let by = match self.awaited {
            Awaited::RestBy(by) => by,
            Awaited::First | Awaited::Rest => after(self.clock, self.pace.patience)?,
        };
        let by = self.ending.cut(self.clock, by)?;
        self.awaited = Awaited::RestBy(by);
        left_until(self.clock, by)
    }
}

impl<'c, T: Read + Timed, C: Clock> Read for Waiting<'c, T, C> {
    /// Where the first byte of a request doesn't come in time, the input ends; where the rest doesn't,
    /// the read fails.
    fn read(&mut self, buf: &mut [u8]) -> IoResult<usize> {
        if self.requests == Requests::NoMore {
            return Ok(0);
        }
        if self.awaited != Awaited::First {
            return self.read_rest(buf);
        }
        match self.read_first(buf) {
            Ok(0) => Ok(0),
            Ok(len) => {
                self.awaited = Awaited::Rest;
                Ok(len)
            }
            Err(error) if is_late(&error) => {
                self.silent = true;
                Ok(0)
            }
            Err(error) => Err(error),
        }
    }
}

/// A socket as the source of a connection.
///
/// The first byte of a request is waited for as long as a connection may be idle. Where it doesn't come,
/// the input ends. From the first read after it, the rest is waited for as long as patience
/// lasts, however slowly it comes; then the read fails. It gives at most 2^64 - 1 bytes, and fails
/// from then on.
///
/// Where a flag is given, it ends the input early: once it is set, the first byte of a request is waited for no
/// longer than a tenth of a second, the rest of one no longer than a second, and the request behind the one that is then
/// awaited is not read.
#[derive(Drop)]
pub struct TimedReader<'c, T, C> {
    waiting: Stream<Waiting<'c, T, C>>,
}

impl<'c, T, C> TimedReader<'c, T, C> {
    ghost use Rattle.sockets.specs.Timed.{reads_failed, bytes_left};

    /// Over this socket, of which nothing was read yet.
    pub fn new(
        socket: T,
        clock: &'c C,
        pace: Pace,
        over: Option<&'c AtomicBool>,
    ) -> TimedReader<'c, T, C>
        ensures failures { reads_failed result ≡ 0 }
        ensures budget { bytes_left result ≡ 2 ^ 64 - 1 }
    {
        TimedReader {
            waiting: Stream::new(Waiting::new(socket, clock, pace, over, None)),
        }
    }

    /// The same for a visit: the connection goes on after it where its client is silent ([`is_silent`](Self::is_silent)). While
    /// the second flag is set, others wait for a visit, and a next request is waited for in no visit.
    pub fn visit(
        socket: T,
        clock: &'c C,
        pace: Pace,
        over: Option<&'c AtomicBool>,
        crowded: &'c AtomicBool,
    ) -> TimedReader<'c, T, C>
        ensures failures { reads_failed result ≡ 0 }
        ensures budget { bytes_left result ≡ 2 ^ 64 - 1 }
    {
        TimedReader {
            waiting: Stream::new(Waiting::new(socket, clock, pace, over, Some(crowded))),
        }
    }

    /// Whether the input ended since its client is silent: no byte of a next request came in time, or was waited for. An input
    /// that its client ended is not silent.
    pub fn is_silent(&mut self) -> bool {
        self.waiting.inner_mut().silent
    }
}

impl<'c, T: Read + Timed, C: Clock> Source for TimedReader<'c, T, C> {
    ghost use Rattle.streams.specs.Stream.{failures_of, budget_of, is_countable};

    ghost left = { λ _. None };

    ghost failed_reads = { λ s. failures_of s.waiting };

    ghost budget = { λ s. budget_of s.waiting };

    ghost is_countable = { λ s. is_countable s.waiting };

    fn read(&mut self, buf: &mut [u8]) -> Result<usize, Failed> {
        self.waiting.read(buf)
    }

    fn failures(&self) -> u64 {
        self.waiting.failures()
    }

    fn awaits(&mut self, begun: bool) {
        self.waiting.inner_mut().awaits(begun);
    }
}
