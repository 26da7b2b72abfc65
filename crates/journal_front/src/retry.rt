//! When what a disk refused is tried again.
ghost use Rattle.std.specs.Prelude.{◌≡◌, ◌*◌, ◌-◌, Some, None, nat_le, true};
ghost use Rattle.std.specs.Time.{instant_nanos};

use std::time::{Duration, Instant};

/// The longest pause between two tries.
const MOST_SECONDS: u64 = 32;

/// When what was refused is tried again: after a second, and then after twice as long each time, up to 32 seconds.
#[derive(Clone, Copy, Drop)]
pub(crate) struct Retry {
    refused: Option<Instant>,
    seconds: u64,
}

impl Retry {
    /// Nothing was refused.
    pub(crate) fn new() -> Retry {
        Retry {
            refused: None,
            seconds: 0,
        }
    }

    /// It was refused, at this time if it is known.
    pub(crate) fn later(self, time: Option<Instant>) -> Retry {
        Retry {
            refused: time,
            seconds: self.seconds.saturating_mul(2).clamp(1, MOST_SECONDS),
        }
    }

    /// Whether it may be tried at this time. It may where the clock can't be read.
    pub(crate) fn is_due(self, time: Option<Instant>) -> bool
        ensures due { (before here : Instant) → self.refused ≡ Some before → time ≡ Some here
            → result ≡ nat_le (self.seconds * 1000000000) (instant_nanos here - instant_nanos before) }
        ensures first { self.refused ≡ None → result ≡ true }
    {
        match (self.refused, time) {
            (Some(before), Some(here)) => {
                here.duration_since(before) >= Duration::from_secs(self.seconds)
            }
            _ => true,
        }
    }
}
