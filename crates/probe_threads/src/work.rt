//! What one session does.
ghost use Rattle.std.specs.Prelude.{◌≡◌, false, IfSome};
ghost use Rattle.model.specs.World.{is_compact};

use commands::{Command, Edit};
use document_id::DocId;
use json_profile::Body;
use sessions::{Fault, Receipt, Session};
use std::alloc::Global;
use std::sync::{Arc, Wait};
use updater_state::{Core, NoGate, Opening};

/// The most sessions of a database.
const MAX_SESSIONS: usize = 64;

/// An odd number, so that products with it differ where the factors do.
const SCATTER: u32 = 2_654_435_761;

/// The first edit of the document of an id, with the body `{}`.
fn put(alloc: Global, id: &str) -> Option<Command>
    ensures { IfSome result (λ command. is_compact command ≡ false) }
{
    let edit = Edit {
        id: DocId::new(alloc, id).ok()?,
        named: None,
        deleted: false,
        body: Arc::new(alloc, Body::empty(alloc)).ok()?,
    };
    Some(Command::edit(edit))
}

/// What a write or a compaction is answered.
#[derive(Debug, Clone, Copy)]
pub(crate) enum Told {
    Receipt { call: u64, place: u64 },
    /// No receipt, and how many entries the session has then seen.
    Fault { fault: Fault, place: u64 },
}

fn told_of(answer: Result<Receipt, Fault>, place: u64) -> Told {
    match answer {
        Ok(receipt) => Told::Receipt {
            call: receipt.seat.call(),
            place: receipt.place,
        },
        Err(fault) => Told::Fault { fault, place },
    }
}

/// Writes a document, if memory is not refused before.
pub(crate) fn write<R: Wait, C: Wait + Drop, J: Opening>(
    rt: &R,
    alloc: Global,
    session: &mut Session<Core<C, J>, J, NoGate>,
    id: &str,
) -> Option<Told> {
    let command = put(alloc, id)?;
    let answer = session.write(rt, command);
    Some(told_of(answer, session.place()))
}

/// Writes a document, and once more where there was no receipt.
pub(crate) fn write_twice<R: Wait, C: Wait + Drop, J: Opening>(
    rt: &R,
    alloc: Global,
    session: &mut Session<Core<C, J>, J, NoGate>,
    id: &str,
) -> Option<[Option<Told>; 2]> {
    let told = write(rt, alloc, session, id)?;
    if matches!(told, Told::Receipt { .. }) {
        return Some([Some(told), None]);
    }
    Some([Some(told), write(rt, alloc, session, id)])
}

fn compact<R: Wait, C: Wait + Drop, J: Opening>(
    rt: &R,
    session: &mut Session<Core<C, J>, J, NoGate>,
) -> Told {
    let answer = session.compact(rt);
    told_of(answer, session.place())
}

/// Writes three documents, if memory is not refused before, and compacts; once more where there was no
/// receipt.
pub(crate) fn compact_twice<R: Wait, C: Wait + Drop, J: Opening>(
    rt: &R,
    alloc: Global,
    session: &mut Session<Core<C, J>, J, NoGate>,
) -> Option<[Option<Told>; 2]> {
    for id in ["a", "b", "c"] {
        let Told::Receipt { .. } = write(rt, alloc, session, id)? else {
            return None;
        };
    }
    let told = compact(rt, session);
    if matches!(told, Told::Receipt { .. }) {
        return Some([Some(told), None]);
    }
    Some([Some(told), Some(compact(rt, session))])
}

/// The number in the id of a session's write. The numbers of all writes differ, and come in no order,
/// so that a write costs the same however many sessions there are.
fn scattered(index: usize, number: u32) -> u32 {
    let first = number.wrapping_mul(MAX_SESSIONS as u32);
    let own = (index % MAX_SESSIONS) as u32;
    first.wrapping_add(own).wrapping_mul(SCATTER)
}

/// Writes so many documents of its own, unless one is refused.
pub(crate) fn write_all<R: Wait, C: Wait + Drop, J: Opening>(
    rt: &R,
    alloc: Global,
    session: &mut Session<Core<C, J>, J, NoGate>,
    index: usize,
    times: u32,
) -> Option<()> {
    for number in 0..times {
        let id = format!(in alloc; "{}", scattered(index, number)).ok()?;
        let Told::Receipt { .. } = write(rt, alloc, session, id.as_str())? else {
            return None;
        };
    }
    Some(())
}

/// Sees so often what is published, unless that is refused.
pub(crate) fn refresh_often<C: Drop, J: Opening>(
    session: &mut Session<C, J, NoGate>,
    times: u32,
) -> Option<()> {
    for _ in 0..times {
        session.refresh().ok()?;
    }
    Some(())
}

/// Looks so often, unless that is refused.
pub(crate) fn look_often<C: Drop, J: Opening>(
    session: &mut Session<C, J, NoGate>,
    times: u32,
) -> Option<()> {
    for _ in 0..times {
        let _snapshot = session.look().ok()?;
    }
    Some(())
}
