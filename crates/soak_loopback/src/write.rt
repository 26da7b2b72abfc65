//! Sessions that write while another one follows.

use crate::command::next_edit;
use crate::marks::Marks;
use crate::worker::Worker;
use session_api::{Calls, Viewer};
use session_calls::SeesVersion;
use std::alloc::Global;
use std::thread;
use std::thread::Threads;
use std::time::Clock;

/// How many sessions write.
pub(crate) const WRITERS: u16 = 3;

/// How many threads they have.
const THREADS: usize = 3;

/// How often each writes.
const ROUNDS: u64 = 100;

/// How many documents they share.
const DOCUMENTS: u64 = 20;

/// Has each session write on a thread of its own.
pub(crate) fn write_all<R: Threads + Sync, S: Worker<R> + Send>(
    rt: &R,
    marks: &Marks,
    sessions: &mut [S],
) {
    thread::for_each_mut(
        rt,
        sessions,
        THREADS,
        &|_index, session| session.write_documents(rt, marks),
    );
}

/// Writes to each document in turn. Half way it waits until what there is was followed.
pub(crate) fn write_often<R: Clock, S: Calls<R> + SeesVersion>(
    rt: &R,
    alloc: Global,
    marks: &Marks,
    session: &mut S,
) {
    for round in 0..ROUNDS {
        if round == ROUNDS / 2 {
            marks.wait(rt, &marks.followed, marks.followed.times());
        }
        if write(rt, alloc, session, round).is_some() {
            marks.written.count();
        }
    }
    marks.done.count();
}

/// An edit over what the session sees, or a deletion; nothing where it has no receipt.
fn write<R, S: Calls<R> + SeesVersion>(
    rt: &R,
    alloc: Global,
    session: &mut S,
    round: u64,
) -> Option<u64> {
    session.refresh().ok()?;
    let deleted = round > DOCUMENTS && round % 7 == 0;
    let command = next_edit(alloc, session.version(), round % DOCUMENTS, deleted)?;
    session.write(rt, command).ok()
}
