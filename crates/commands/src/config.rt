//! The configuration of a database.
ghost use Rattle.std.specs.Prelude.{◌≡◌, ◌↔◌, IsTrue, IsSome, IfSome};
ghost use Rattle.model.specs.World.{IsConfig, IsFromTo};
ghost use Rattle.commands.specs.Config.{config_of};

use std::marker::Model;

/// The most sessions of a database.
pub(crate) const MAX_SESSIONS: u16 = 64;

/// The most jobs that may wait.
const MAX_QUEUE: u16 = 1024;

/// The most jobs of a batch.
const MAX_GATHER: u16 = 64;

/// The most records that a compaction copies at a time.
const MAX_SLICE: u16 = 4096;

/// The most touched documents that a compaction takes over at its end.
const MAX_SLACK: u16 = 64;

/// How often a compaction is tried at most.
const MAX_TRIES: u16 = 64;

/// The most entries of a history.
pub const MAX_PLACES: u32 = 4_294_967_295;

/// Numbers for a configuration.
#[derive(Debug, Clone, Copy, Drop)]
pub struct Limits {
    /// How many sessions there are, 1 to 64.
    pub sessions: u16,
    /// How many jobs may wait, 1 to 1,024.
    pub queue: u16,
    /// The most jobs of a batch, 1 to 64.
    pub gather: u16,
    /// The most records that a compaction copies at a time, 1 to 4,096.
    pub slice: u16,
    /// The most touched documents that a compaction takes over at its end, 0 to 64.
    pub slack: u16,
    /// How often a compaction is tried, 1 to 64.
    pub tries: u16,
    /// The most entries of a history, 1 to [`MAX_PLACES`].
    pub max_places: u32,
}

/// A configuration within the limits.
#[derive(Debug, Clone, Copy, Drop)]
pub struct Config {
    limits: Limits,
}

impl Model for Config {
    ghost use Rattle.model.specs.World.{Config, IsConfig};
    ghost use Rattle.commands.specs.Config.{config_of, limits_of};

    ghost Value = { Config };

    ghost view = { λ c. config_of c.limits };

    ghost inverse = { λ c. record { limits = limits_of c } };

    ghost invariant = { λ c. IsConfig (config_of c.limits) };
}

impl Config {
    /// The configuration of these numbers, where each is in its range.
    pub fn new(limits: Limits) -> Option<Config>
        ensures in_range { IsSome result ↔ IsConfig (config_of limits) }
        ensures config { IfSome result (λ config. config ≡ config_of limits) }
    {
        if !are_in_range(&limits) {
            return None;
        }
        Some(Config { limits })
    }

    /// The numbers, each in its range.
    pub fn limits(self) -> Limits
        ensures limits { config_of result ≡ self }
        ensures in_range { IsConfig self }
    {
        self.limits
    }
}

fn are_in_range(limits: &Limits) -> bool
    ensures in_range { IsTrue result ↔ IsConfig (config_of limits.now) }
{
    is_from_to(1, MAX_SESSIONS, limits.sessions)
        && is_from_to(1, MAX_QUEUE, limits.queue)
        && is_from_to(1, MAX_GATHER, limits.gather)
        && is_from_to(1, MAX_SLICE, limits.slice)
        && is_from_to(0, MAX_SLACK, limits.slack)
        && is_from_to(1, MAX_TRIES, limits.tries)
        && limits.max_places >= 1
}

fn is_from_to(low: u16, high: u16, number: u16) -> bool
    ensures { IsTrue result ↔ IsFromTo low high number }
{
    low <= number && number <= high
}
