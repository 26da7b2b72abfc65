//! Points in time until which a peer is waited for.
ghost use Rattle.std.specs.Prelude.{◌≡◌, ◌+◌, ◌-◌, ◌<◌, ◌↔◌, IsSome, IfSome, IfOk};
ghost use Rattle.std.specs.Duration.{as_nanos};
ghost use Rattle.std.specs.Time.{instant_nanos};

use crate::flag::is_set;
use std::io;
use std::io::ErrorKind;
use std::sync::atomic::AtomicBool;
use std::time::{Clock, Duration, Instant};

/// Where a flag may end a connection, its peer is waited for in slices of so many milliseconds.
const SLICE_MILLISECONDS: u64 = 100;

/// How a flag cuts short what is waited for.
#[derive(Drop)]
pub(crate) struct Ending<'c> {
    over: Option<&'c AtomicBool>,
    grace: Duration,
    last: Option<Instant>,
}

impl<'c> Ending<'c> {
    /// So long after the flag, if one is given, was first seen to be set, nothing is waited for any longer.
    pub(crate) fn new(over: Option<&'c AtomicBool>, grace: Duration) -> Ending<'c> {
        Ending {
            over,
            grace,
            last: None,
        }
    }

    /// Whether the connection ends.
    pub(crate) fn has_come(&self) -> bool {
        is_set(self.over)
    }

    /// Until when is waited for what would be waited for until then.
    ///
    /// # Errors
    ///
    /// The clock can't be read, or ends before.
    pub(crate) fn cut<C: Clock>(&mut self, clock: &C, by: Instant) -> io::Result<Instant> {
        if !self.has_come() {
            return Ok(by);
        }
        let last = match self.last {
            Some(last) => last,
            None => after(clock, self.grace)?,
        };
        self.last = Some(last);
        Ok(by.min(last))
    }

    /// For how much of this time is waited before the flag is looked at: for all of it, where there is none.
    pub(crate) fn slice(&self, left: Duration) -> Duration {
        if self.over.is_none() {
            return left;
        }
        left.min(Duration::from_millis(SLICE_MILLISECONDS))
    }
}

/// So long after now.
///
/// # Errors
///
/// The clock can't be read, or ends before.
pub(crate) fn after<C: Clock>(clock: &C, time: Duration) -> io::Result<Instant> {
    let Some(by) = Instant::now(clock)?.checked_add(time) else {
        return Err(io::Error::from(ErrorKind::TimedOut));
    };
    Ok(by)
}

/// How long it is until then.
///
/// # Errors
///
/// [`ErrorKind::TimedOut`] where it is then, or later. The error of a clock that can't be read.
pub(crate) fn left_until<C: Clock>(clock: &C, by: Instant) -> io::Result<Duration>
    ensures { IfOk result (λ left. 0 < as_nanos left) }
{
    let now = Instant::now(clock)?;
    let Some(left) = left_at(now, by) else {
        return Err(io::Error::from(ErrorKind::TimedOut));
    };
    Ok(left)
}

/// How long it is from `now` to `by`, where that is later.
pub(crate) fn left_at(now: Instant, by: Instant) -> Option<Duration>
    ensures some { IsSome result ↔ (instant_nanos now < instant_nanos by) }
    ensures left { IfSome result (λ left. as_nanos left + instant_nanos now ≡ instant_nanos by) }
{
    let left = by.checked_duration_since(now)?;
    if left.is_zero() {
        return None;
    }
    Some(left)
}

/// Whether a call failed since the time that the socket was given for it had passed.
pub(crate) fn is_late(error: &io::Error) -> bool {
    matches!(error.kind(), ErrorKind::WouldBlock | ErrorKind::TimedOut)
}
