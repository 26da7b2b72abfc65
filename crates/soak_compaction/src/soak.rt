//! Many sessions that write, purge, compact and read at once.

use crate::caller::Caller;
use crate::command::{edit_over, numbered, purge};
use crate::content::{sample_of, winner};
use crate::notes::Notes;
use crate::told::Told;
use commands::{Command, Limits};
use snapshots::Version;
use std::alloc::Global;
use std::sync::Wait;
use std::thread;
use std::time::{Clock, Duration};

/// Eight sessions write, two purge, two compact and four read.
pub(crate) const LIMITS: Limits = Limits {
    sessions: 16,
    queue: 16,
    gather: 8,
    slice: 4,
    slack: 8,
    tries: 8,
    max_places: 100_000,
};

/// How many documents they share.
const DOCUMENTS: usize = 40;

/// What a session does in each of its rounds.
#[derive(Clone, Copy)]
enum Role {
    Writes,
    Purges,
    Compacts,
    Reads,
}

fn role_of(index: usize) -> Role {
    match index {
        0..=7 => Role::Writes,
        8 | 9 => Role::Purges,
        10 | 11 => Role::Compacts,
        _ => Role::Reads,
    }
}

fn rounds_of(role: Role) -> usize {
    match role {
        Role::Writes => 10_000,
        Role::Purges => 2000,
        Role::Compacts => 2000,
        Role::Reads => 2000,
    }
}

/// Does all rounds of a session.
pub(crate) fn soak<X: Wait + Clock, S: Caller<X>>(
    rt: &X,
    alloc: Global,
    notes: &Notes,
    index: usize,
    session: &mut S,
) {
    let role = role_of(index);
    for round in 0..rounds_of(role) {
        let document = round.wrapping_mul(7).wrapping_add(index) % DOCUMENTS;
        match act(rt, alloc, notes, role, document, session) {
            Some(told) => notes.count(told),
            None => pause(rt),
        }
    }
}

/// Leaves the others time.
fn pause(clock: &impl Clock) {
    thread::sleep(clock, Duration::from_millis(1));
}

/// A session's act on a document, and what it is answered; nothing where it called nothing.
fn act<X: Wait + Clock, S: Caller<X>>(
    rt: &X,
    alloc: Global,
    notes: &Notes,
    role: Role,
    document: usize,
    session: &mut S,
) -> Option<Told> {
    if !session.refresh() {
        return Some(Told::Nothing);
    }
    match role {
        Role::Writes => {
            let command = next_edit(alloc, session.version(), document)?;
            Some(session.write(rt, command))
        }
        Role::Purges => {
            pause(rt);
            let command = next_purge(alloc, session.version(), document)?;
            Some(session.write(rt, command))
        }
        Role::Compacts => {
            pause(rt);
            Some(session.compact(rt))
        }
        Role::Reads => {
            notes.add_sample(rt, sample_of(alloc, session.version(), document)?);
            None
        }
    }
}

/// An edit of a document over what wins in the version.
fn next_edit(alloc: Global, version: &Version, document: usize) -> Option<Command> {
    let id = numbered(alloc, document)?;
    let named = winner(version, &id);
    let body = format!(in alloc; "{{\"place\":{}}}", version.place()).ok()?;
    edit_over(alloc, id, named, body.as_str())
}

/// A purge of what wins in the version, where the document is there.
fn next_purge(alloc: Global, version: &Version, document: usize) -> Option<Command> {
    let id = numbered(alloc, document)?;
    let named = winner(version, &id)?;
    purge(alloc, id, named)
}
