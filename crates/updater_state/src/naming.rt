//! The name of one opened database.

use job_queue::Queued;
use std::marker::Brand;
use version_log::Naming;

/// Which book of publications and which queue it is, and its configuration.
pub trait Opening: Naming + Queued {
    ghost use Rattle.model.specs.World.{Config};

    ghost config: { Config };
}

impl Opening for Brand {
    ghost config = { record { sessions = 0; queue = 0; gather = 0; slice = 0; slack = 0; tries = 0; max_places = 0 } };
}
