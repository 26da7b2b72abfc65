//! Sockets over a script, and the clock that goes on while they wait.
ghost use Rattle.std.specs.Prelude.{◌≤◌, IfOk, length};

use sockets::Timed;
use std::cell::Cell;
use std::io::{Error, ErrorKind, Read, Result as IoResult, Write};
use std::sync::atomic::{AtomicBool, Ordering};
use std::time::{Clock, Duration};

/// A clock that goes on while a socket waits, in milliseconds, and sets a flag when its time comes.
#[derive(Drop)]
pub(crate) struct Ticks<'f> {
    now: Cell<u64>,
    flag: &'f AtomicBool,
    flag_at: u64,
}

impl<'f> Ticks<'f> {
    /// At 0.
    pub(crate) fn new(flag: &'f AtomicBool, flag_at: u64) -> Ticks<'f> {
        Ticks {
            now: Cell::new(0),
            flag,
            flag_at,
        }
    }

    /// The time.
    pub(crate) fn now(&self) -> u64 {
        self.now.get()
    }

    /// Goes on to then, where that is later.
    fn go_on(&self, then: u64) {
        self.now.set(self.now().max(then));
        if self.now() >= self.flag_at {
            self.flag.store(true, Ordering::SeqCst);
        }
    }
}

impl Clock for Ticks<'_> {
    fn monotonic(&self) -> IoResult<Duration> {
        Ok(Duration::from_millis(self.now()))
    }

    fn since_1970(&self) -> IoResult<Duration> {
        Ok(Duration::from_millis(self.now()))
    }
}

/// What a socket comes to.
#[derive(Clone, Copy, Debug, PartialEq, Eq)]
pub(crate) enum Event {
    /// So many bytes come, or are taken.
    Bytes(usize),
    /// The input ends, or nothing is taken.
    End,
    /// A call fails.
    Fail,
}

/// When it comes to that.
#[derive(Clone, Copy, Debug, PartialEq, Eq)]
pub(crate) struct Step {
    pub(crate) at: u64,
    pub(crate) event: Event,
}

/// A socket that comes to the steps of a script in their order.
#[derive(Drop)]
pub(crate) struct TimedScript<'s> {
    ticks: &'s Ticks<'s>,
    steps: &'s [Step],
    moved: usize,
    within: u64,
}

impl<'s> TimedScript<'s> {
    /// A socket that can't wait yet.
    pub(crate) fn new(ticks: &'s Ticks<'s>, steps: &'s [Step]) -> TimedScript<'s> {
        TimedScript {
            ticks,
            steps,
            moved: 0,
            within: 0,
        }
    }

    /// How many bytes of the script have not been moved.
    pub(crate) fn unmoved(&self) -> usize {
        let mut sum: usize = 0;
        for step in self.steps {
            if let Event::Bytes(len) = step.event {
                sum = sum.saturating_add(len);
            }
        }
        sum.saturating_sub(self.moved)
    }

    fn wait_within(&mut self, time: Duration) -> IoResult<()> {
        if time.is_zero() {
            return Err(Error::from(ErrorKind::InvalidInput));
        }
        self.within = u64::try_from(time.as_millis()).unwrap_or(u64::MAX);
        Ok(())
    }

    /// Moves at most so many bytes, once the script comes to its next step.
    fn move_bytes(&mut self, most: usize) -> IoResult<usize>
        ensures within { IfOk result (λ n. n ≤ most) }
    {
        let by = self.ticks.now().saturating_add(self.within);
        let Some(step) = self.steps.first() else {
            self.ticks.go_on(by);
            return Err(Error::from(ErrorKind::WouldBlock));
        };
        if step.at > by {
            self.ticks.go_on(by);
            return Err(Error::from(ErrorKind::WouldBlock));
        }
        self.ticks.go_on(step.at);
        match step.event {
            Event::Bytes(len) => Ok(self.move_of(len, most)),
            Event::End => Ok(0),
            Event::Fail => Err(Error::from(ErrorKind::Other)),
        }
    }

    /// Moves at most so many bytes of the step's.
    fn move_of(&mut self, len: usize, most: usize) -> usize
        ensures within { result ≤ most }
    {
        let moved = most.min(len.saturating_sub(self.moved));
        self.moved = self.moved.saturating_add(moved);
        if self.moved >= len {
            self.moved = 0;
            self.steps = self.steps.get(1..).unwrap_or(&[]);
        }
        moved
    }
}

impl Timed for TimedScript<'_> {
    fn read_within(&mut self, time: Duration) -> IoResult<()> {
        self.wait_within(time)
    }

    fn write_within(&mut self, time: Duration) -> IoResult<()> {
        self.wait_within(time)
    }
}

impl Read for TimedScript<'_> {
    fn read(&mut self, buf: &mut [u8]) -> IoResult<usize> {
        self.move_bytes(buf.len())
    }
}

impl Write for TimedScript<'_> {
    fn write(&mut self, buf: &[u8]) -> IoResult<usize> {
        self.move_bytes(buf.len())
    }

    fn flush(&mut self) -> IoResult<()> {
        Ok(())
    }
}
