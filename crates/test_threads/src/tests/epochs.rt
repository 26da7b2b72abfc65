//! A database that goes on after its history was closed.
ghost use Rattle.history_lock.specs.Names.{IsNamed};

use crate::tests::{FIRST, LIMITS, answer, put};
use commands::{Config, Limits};
use history_lock::{Closed, Opened, SuccessorFault, open};
use model::Refusal;
use revision_id::RevId;
use sessions::{Receipt, Session};
use snapshots::Version;
use std::alloc::Global;
use std::marker::Brand;
use std::sync::Wait;
use std::test::*;
use updater_state::{Core, NoGate, Opening};

/// How many entries and updates a session has seen.
#[derive(Debug, Clone, Copy, PartialEq, Eq)]
struct Seen {
    place: u64,
    updates: u64,
}

/// What a receipt says of one write.
#[derive(Debug, Clone, Copy, PartialEq, Eq)]
struct Written {
    place: u64,
    call: u64,
    answer: Option<Result<RevId, Refusal>>,
}

/// What a session saw at the beginning of an epoch, what its two writes were answered, and what it saw then.
#[derive(Debug, Clone, Copy, PartialEq, Eq)]
struct Epoch {
    begun: Seen,
    one: Option<Written>,
    other: Option<Written>,
    ended: Seen,
}

/// A database up to its end, two successors of it, and what the closed one still shows after both.
#[derive(Debug, Clone, Copy, PartialEq, Eq)]
struct Epochs {
    first: Epoch,
    one: Epoch,
    other: Epoch,
    closed: Seen,
}

#[test]
fn a_successor_goes_on(rt: HostRuntime) -> Result<(), Fail> {
    assert_eq!(rt; all_epochs(&rt, rt.alloc(), 100), Some(expected(2)));
    Ok(())
}

#[test]
fn a_full_history_has_a_successor(rt: HostRuntime) -> Result<(), Fail> {
    assert_eq!(rt; all_epochs(&rt, rt.alloc(), 1), Some(expected(1)));
    Ok(())
}

/// Each first write is the first edit of a document, also that of one document in both successors, since neither knows
/// of the other. Each other write is of a document that is there, and has a place or none.
fn expected(place: u64) -> Epochs {
    let first = epoch_between(0, 1, place);
    let one = epoch_between(1, 2, place);
    let other = epoch_between(1, 2, place);
    Epochs {
        first,
        one,
        other,
        closed: Seen { place, updates: 1 },
    }
}

/// An epoch that begins and ends after so many updates, and has so many entries.
fn epoch_between(begun: u64, ended: u64, place: u64) -> Epoch {
    Epoch {
        begun: Seen {
            place: 0,
            updates: begun,
        },
        one: Some(Written {
            place: 1,
            call: 1,
            answer: RevId::parse(FIRST).ok().map(Ok),
        }),
        other: refused(place),
        ended: Seen {
            place,
            updates: ended,
        },
    }
}

/// What the other write is answered, if it has a place.
fn refused(place: u64) -> Option<Written> {
    if place < 2 {
        return None;
    }
    Some(Written {
        place: 2,
        call: 2,
        answer: Some(Err(Refusal::Conflict)),
    })
}

/// Has documents written in a database whose history has so many places, and in two successors of it.
fn all_epochs<R: Wait>(rt: &R, alloc: Global, max_places: u32) -> Option<Epochs> {
    let config = Config::new(Limits {
        sessions: 1,
        max_places,
        ..LIMITS
    })?;
    let opened = Opened::new(alloc, config).ok()?;
    first_epoch::<Brand, R>(rt, alloc, config, opened)
}

/// Has a document written twice, and goes on after that by two successors, opened before either writes.
fn first_epoch<J: Opening, R: Wait>(
    rt: &R,
    alloc: Global,
    config: Config,
    opened: Opened,
) -> Option<Epochs>
    requires named { IsNamed J.book J.base J.table J.capacity J.sessions J.config opened }
{
    let (first, closed) = worked::<J, R>(rt, alloc, opened, "a", "a")?;
    let one = Opened::after(alloc, config, &closed);
    let other = Opened::after(alloc, config, &closed);
    let one = goes_on(rt, alloc, one);
    let other = goes_on(rt, alloc, other);
    Some(Epochs {
        first,
        one: one?,
        other: other?,
        closed: seen_of(closed.version()),
    })
}

fn goes_on<R: Wait>(
    rt: &R,
    alloc: Global,
    successor: Result<Opened, SuccessorFault>,
) -> Option<Epoch> {
    let Ok(opened) = successor else {
        return None;
    };
    last_epoch::<Brand, R>(rt, alloc, opened)
}

/// Has another document written, and then the one of the epoch before.
fn last_epoch<J: Opening, R: Wait>(rt: &R, alloc: Global, opened: Opened) -> Option<Epoch>
    requires named { IsNamed J.book J.base J.table J.capacity J.sessions J.config opened }
{
    let (epoch, _closed) = worked::<J, R>(rt, alloc, opened, "b", "a")?;
    Some(epoch)
}

/// Has the only session of a database write twice, and closes it.
fn worked<J: Opening, R: Wait>(
    rt: &R,
    alloc: Global,
    opened: Opened,
    one: &str,
    other: &str,
) -> Option<(Epoch, Closed<J>)>
    requires named { IsNamed J.book J.base J.table J.capacity J.sessions J.config opened }
{
    let Ok((master, mut sessions)) = open::<&R, J, NoGate>(rt, opened, NoGate) else {
        return None;
    };
    let epoch = both_writes(rt, alloc, sessions.as_mut_slice(), one, other);
    let closed = master.close(sessions, rt);
    Some((epoch?, closed))
}

/// What the only session sees and is answered, as it writes these two documents.
fn both_writes<J: Opening, R: Wait>(
    rt: &R,
    alloc: Global,
    sessions: &mut [Session<Core<&R, J>, J, NoGate>],
    one: &str,
    other: &str,
) -> Option<Epoch> {
    let session = sessions.first_mut()?;
    let begun = seen_by(session);
    let one = told_to(rt, alloc, session, one);
    let other = told_to(rt, alloc, session, other);
    Some(Epoch {
        begun,
        one,
        other,
        ended: seen_by(session),
    })
}

/// What a write is answered, unless it has no receipt.
fn told_to<J: Opening, R: Wait>(
    rt: &R,
    alloc: Global,
    session: &mut Session<Core<&R, J>, J, NoGate>,
    id: &str,
) -> Option<Written> {
    let receipt: Receipt = session.write(rt, put(alloc, id)?).ok()?;
    Some(Written {
        place: receipt.place,
        call: receipt.seat.call(),
        answer: answer(receipt.reply.kind()),
    })
}

fn seen_by<C: Drop, J: Opening, G: Drop>(session: &Session<C, J, G>) -> Seen {
    seen_of(session.version())
}

fn seen_of(version: &Version) -> Seen {
    Seen {
        place: version.place(),
        updates: version.database().documents().update_seq(),
    }
}
