//! The end of a socket that is written.
ghost use Rattle.std.specs.Prelude.{◌≡◌, None};

use crate::deadlines::{Ending, after, is_late, left_until};
use crate::pace::GRACE_SECONDS;
use crate::timed::Timed;
use std::io::{Error, ErrorKind, Result as IoResult, Write};
use std::sync::atomic::AtomicBool;
use std::time::{Clock, Duration, Instant};
use streams::{Failed, Sink, Stream};

/// So many slices are waited for in a row at most: some eleven days.
const MOST_SLICES: u64 = 10_000_000;

/// A socket whose writes end in time.
#[derive(Drop)]
struct Offering<'c, T, C> {
    socket: T,
    clock: &'c C,
    patience: Duration,
    ending: Ending<'c>,
    by: Option<Instant>,
    told: Option<Duration>,
}

impl<'c, T: Write + Timed, C: Clock> Offering<'c, T, C> {
    /// How long the text may still be waited for, from its first write on.
    fn left(&mut self) -> IoResult<Duration> {
        if self.by.is_none() && !self.ending.has_come() {
            self.by = Some(after(self.clock, self.patience)?);
            return Ok(self.patience);
        }
        let by = match self.by {
            Some(by) => by,
            None => after(self.clock, self.patience)?,
        };
        let by = self.ending.cut(self.clock, by)?;
        self.by = Some(by);
        left_until(self.clock, by)
    }

    /// Has the socket wait so long at most, which it may know already.
    fn wait_at_most(&mut self, time: Duration) -> IoResult<()> {
        if self.told != Some(time) {
            self.socket.write_within(time)?;
            self.told = Some(time);
        }
        Ok(())
    }
}

impl<'c, T: Write + Timed, C: Clock> Write for Offering<'c, T, C> {
    /// Where a flag may end the connection, it is looked at after each slice of the time in which nothing is taken.
    fn write(&mut self, buf: &[u8]) -> IoResult<usize> {
        for _ in 0..MOST_SLICES {
            let left = self.left()?;
            let slice = self.ending.slice(left);
            self.wait_at_most(slice)?;
            match self.socket.write(buf) {
                Err(error) if is_late(&error) && slice < left => {}
                outcome => return outcome,
            }
        }
        Err(Error::from(ErrorKind::TimedOut))
    }

    fn flush(&mut self) -> IoResult<()> {
        self.socket.flush()
    }
}

/// A socket as the sink of a connection.
///
/// From its first write on, a text is to be taken as long as patience lasts, however slowly; then the
/// write fails. A write that takes nothing is a failure. Where a flag is given, a text is to be taken no longer than a second
/// after it is set.
#[derive(Drop)]
pub struct TimedWriter<'c, T, C> {
    offering: Stream<Offering<'c, T, C>>,
}

impl<'c, T, C> TimedWriter<'c, T, C> {
    ghost use Rattle.sockets.specs.Timed.{writes_failed};

    /// Over this socket, to which nothing was written yet.
    pub fn new(
        socket: T,
        clock: &'c C,
        patience: Duration,
        over: Option<&'c AtomicBool>,
    ) -> TimedWriter<'c, T, C>
        ensures failures { writes_failed result ≡ 0 }
    {
        TimedWriter {
            offering: Stream::new(Offering {
                socket,
                clock,
                patience,
                ending: Ending::new(over, Duration::from_secs(GRACE_SECONDS)),
                by: None,
                told: None,
            }),
        }
    }
}

impl<'c, T: Write + Timed, C: Clock> Sink for TimedWriter<'c, T, C> {
    ghost use Rattle.streams.specs.Stream.{failures_of};

    ghost taken = { λ _. None };

    ghost failed_writes = { λ s. failures_of s.offering };

    fn write(&mut self, buf: &[u8]) -> Result<usize, Failed> {
        self.offering.write(buf)
    }

    fn failures(&self) -> u64 {
        self.offering.failures()
    }

    fn begins(&mut self) {
        let offering = self.offering.inner_mut();
        offering.by = None;
    }
}
