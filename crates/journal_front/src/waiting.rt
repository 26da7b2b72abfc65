//! Sessions that answer what a journal has.
ghost use Rattle.std.specs.Prelude.{◌≡◌, ◌+◌, ◌≤◌, [], length, map, vec_capacity, IfOk, IfSome};
ghost use Rattle.durable_calls.specs.Kept.{Answering};
ghost use Rattle.journal_front.specs.Server.{AllJournaled};

use crate::journaled::Journaled;
use crate::naming::Keeping;
use durable_calls::{Durable, KeptPlace, Progress};
use std::alloc::{AllocError, Global};

/// Sessions that answer what a journal has, and what it keeps where they await that. They know that it has come so far.
pub(crate) fn all_durable<'p, S: Drop, N: Keeping, P, R>(
    alloc: Global,
    sessions: Vec<S>,
    place: &'p KeptPlace<Journaled<N>>,
    passes: &'p P,
    rt: &'p R,
    awaits: bool,
    known: &Journaled<N>,
) -> Result<Vec<Durable<'p, S, Journaled<N>, P, R>>, AllocError>
    ensures { IfOk result (λ durable. durable.items ≡ map (λ (s : S). (s, (awaits, known.now))) sessions.items) }
{
    let mut durable = Vec::with_capacity(alloc, sessions.len())?;
    for session in sessions {
        durable.push(Durable::new(session, place, passes, rt, awaits, known.again()))?;
    }
    Ok(durable)
}

/// The sessions themselves, in a vector with room for all and one more. Nothing where one knows of more than is known here to be in the
/// journal.
pub(crate) fn all_inner<S: Drop, N: Keeping, P, R>(
    durable: Vec<Durable<'_, S, Journaled<N>, P, R>>,
    known: &Journaled<N>,
    room: Vec<S>,
) -> Option<Vec<S>>
    requires room { (room.items ≡ []) × (length durable.items + 1 ≤ vec_capacity room) }
    ensures items { IfSome result (λ sessions. sessions.items ≡ map (λ (d : Answering S). d.0) durable.entry.items) }
    ensures journaled { IfSome result (λ _. AllJournaled known.now durable.entry.items) }
    ensures room { IfSome result (λ sessions. length sessions.items + 1 ≤ vec_capacity sessions) }
{
    let mut sessions = room;
    for session in durable {
        let (session, learned) = session.into_parts();
        if !learned.precedes(known) {
            return None;
        }
        sessions.push_reserved(session);
    }
    Some(sessions)
}
