//! What a list of events makes of a machine.
ghost use Rattle.std.specs.Prelude.{◌≡◌, ◌≤◌, None, Some, IfOk, OnOk, map};
ghost use Rattle.model.specs.History.{base_of, now, largest_base, successor};
ghost use Rattle.model.specs.World as model;
ghost use Rattle.machine.specs.Events.{event_of};
ghost use Rattle.machine.specs.Runs.{IsRun};

use crate::completed::Completed;
use crate::event::Event;
use crate::machine::Machine;
use commands::Config;
use snapshots::Version;
use std::alloc::{AllocError, Global};

/// The history after all events, and the calls that they completed, in order.
#[derive(Drop)]
pub struct Record {
    pub version: Version,
    pub completed: Vec<Completed>,
}

/// What the events make of a machine over the empty database, one after another.
pub fn run(alloc: Global, config: Config, events: &[Event]) -> Result<Record, AllocError>
    ensures ran { IfOk result (IsRun None config (map event_of events.now)) }
{
    let mut machine = Machine::new(alloc, config)?;
    step_all(&mut machine, events)?;
    Ok(machine.into_record())
}

/// What the events make of a machine of the epoch after this version, one after another.
pub fn run_after(
    alloc: Global,
    config: Config,
    version: &Version,
    events: &[Event],
) -> Result<Record, AllocError>
    requires updates { (now version.now).update_seq ≤ largest_base }
    requires purges { (now version.now).purges.purge_seq ≤ largest_base }
    ensures ran { IfOk result (IsRun (Some (successor (now version.now))) config (map event_of events.now)) }
{
    let mut machine = Machine::after(alloc, config, version)?;
    step_all(&mut machine, events)?;
    Ok(machine.into_record())
}

/// Does what the events say, one after another.
fn step_all(machine: &mut Machine, events: &[Event]) -> Result<(), AllocError>
    ensures base { OnOk result (machine.new.base ≡ machine.old.base) }
    ensures world { OnOk result (machine.new.world ≡ model.run (base_of machine.old.base) machine.old.config machine.old.world (map event_of events.now)) }
{
    for event in events {
        machine.step(event)?;
    }
    Ok(())
}
