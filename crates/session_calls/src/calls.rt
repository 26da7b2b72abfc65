//! The calls of a session, as connections see them.
ghost use Rattle.std.specs.Prelude.{◌≡◌, true, false};
ghost use Rattle.model.specs.Command.{Compact};
ghost use Rattle.model.specs.World.{is_compact};
ghost use Rattle.session_api.specs.Learns.{Learns};
ghost use Rattle.session_api.specs.SessionCall as call;
ghost use Rattle.session_calls.specs.Sessions.{Goes, call_fault, known_of};

use commands::Command;
use session_api::{CallFault, Unavailable};
use sessions::{Fault, Session};
use std::sync::Wait;
use std::time::Clock;
use updater_state::{Core, Gate, Opening};

/// Sees what is there now.
pub(crate) fn look<C: Drop, J: Opening, G: Drop>(
    session: &mut Session<C, J, G>,
) -> Result<(), CallFault>
    ensures goes { Goes J.base J.config J.sessions J.capacity session.old (call.Refreshed result) session.new }
    ensures learns { Learns (known_of J.base J.config J.sessions J.capacity session.old) (call.Refreshed result)
        (known_of J.base J.config J.sessions J.capacity session.new) }
{
    let _recalled = session.place();
    match session.refresh() {
        Ok(()) => Ok(()),
        Err(fault) => Err(call_fault(fault)),
    }
}

/// Waits for an update number above `seq`.
pub(crate) fn wait_for<C: Drop, J: Opening, G: Drop, X: Clock>(
    session: &mut Session<C, J, G>,
    clock: &X,
    seq: u64,
    turns: u64,
) -> Result<bool, CallFault>
    ensures goes { Goes J.base J.config J.sessions J.capacity session.old (call.Waited seq turns result) session.new }
    ensures learns { Learns (known_of J.base J.config J.sessions J.capacity session.old) (call.Waited seq turns result)
        (known_of J.base J.config J.sessions J.capacity session.new) }
{
    let _recalled = session.place();
    match session.wait_past(clock, seq, turns) {
        Ok(past) => Ok(past),
        Err(fault) => Err(call_fault(fault)),
    }
}

/// Writes a command that is no compaction.
pub(crate) fn edit<R: Wait + Drop, J: Opening, G: Gate + Drop, X: Wait>(
    session: &mut Session<Core<R, J>, J, G>,
    rt: &X,
    command: Command,
) -> Result<u64, CallFault>
    requires edit { is_compact command ≡ false }
    ensures goes { Goes J.base J.config J.sessions J.capacity session.old (call.Wrote command result) session.new }
    ensures learns { Learns (known_of J.base J.config J.sessions J.capacity session.old) (call.Wrote command result)
        (known_of J.base J.config J.sessions J.capacity session.new) }
{
    let _recalled = session.place();
    match session.write(rt, command) {
        Ok(receipt) => Ok(receipt.place),
        Err(fault) => Err(call_fault(fault)),
    }
}

/// Compacts.
pub(crate) fn compact<R: Wait + Drop, J: Opening, G: Gate + Drop, X: Wait>(
    session: &mut Session<Core<R, J>, J, G>,
    rt: &X,
) -> Result<u64, CallFault>
    ensures goes { Goes J.base J.config J.sessions J.capacity session.old (call.Wrote Compact result) session.new }
    ensures learns { Learns (known_of J.base J.config J.sessions J.capacity session.old) (call.Wrote Compact result)
        (known_of J.base J.config J.sessions J.capacity session.new) }
{
    let _recalled = session.place();
    match session.compact(rt) {
        Ok(receipt) => Ok(receipt.place),
        Err(fault) => Err(call_fault(fault)),
    }
}

/// A session's fault, as a connection reports it.
fn call_fault(fault: Fault) -> CallFault
    ensures { result ≡ call_fault fault }
{
    match fault {
        Fault::Memory => CallFault::Memory,
        Fault::Busy => CallFault::Unavailable(Unavailable::Busy),
        Fault::Lost => CallFault::Unavailable(Unavailable::Lost),
        Fault::Full => CallFault::Unavailable(Unavailable::Full),
        Fault::EntryRefused => CallFault::Unavailable(Unavailable::Entry),
        Fault::Behind => CallFault::Unavailable(Unavailable::Behind),
        Fault::Overrun => CallFault::Unavailable(Unavailable::Overrun),
    }
}
