//! What the sessions of a case do.

use crate::act::Act;
use crate::caller::Caller;
use crate::case::Case;
use crate::command::{command_of, id_of, revision};
use crate::content::{content, kept};
use crate::notes::Notes;
use crate::told::Told;
use std::alloc::Global;
use std::sync::Wait;
use std::time::Clock;

/// The session that is not held.
const OTHER: usize = 1;

/// What a session does before they meet.
pub(crate) fn part<X: Wait + Clock, S: Caller<X>>(
    rt: &X,
    alloc: Global,
    case: Case,
    notes: &Notes,
    index: usize,
    session: &mut S,
) {
    let script = case.script();
    if index != OTHER {
        return do_all(rt, alloc, notes, index, session, script.held_acts);
    }
    do_while_held(rt, alloc, notes, session, script.acts);
}

/// Does what belongs to each time that the other session is held.
fn do_while_held<X: Wait + Clock, S: Caller<X>>(
    rt: &X,
    alloc: Global,
    notes: &Notes,
    session: &mut S,
    all_acts: &[&[Act]],
) {
    let mut times: u64 = 0;
    for acts in all_acts {
        times = times.saturating_add(1);
        notes.marks.wait_for_held(rt, times);
        do_all(rt, alloc, notes, OTHER, session, *acts);
        notes.marks.release();
    }
}

/// Has both meet, and then the other one do the rest.
pub(crate) fn meet<X: Wait, S: Caller<X>>(
    rt: &X,
    alloc: Global,
    case: Case,
    notes: &Notes,
    sessions: &mut [S],
) {
    let Some((first, others)) = sessions.split_first_mut() else {
        return;
    };
    let Some(other) = others.first_mut() else {
        return;
    };
    let met = match first.meet(other) {
        Some(place) => Told::Met { place },
        None => Told::Nothing,
    };
    notes.add_line(rt, OTHER, met);
    do_all(rt, alloc, notes, OTHER, other, case.script().last_acts);
}

fn do_all<X: Wait, S: Caller<X>>(
    rt: &X,
    alloc: Global,
    notes: &Notes,
    index: usize,
    session: &mut S,
    acts: &[Act],
) {
    for act in acts {
        let told = do_one(rt, alloc, session, *act);
        notes.add_line(rt, index, told.unwrap_or(Told::Nothing));
    }
}

/// What the act is answered, if memory is not refused before.
fn do_one<X, S: Caller<X>>(rt: &X, alloc: Global, session: &mut S, act: Act) -> Option<Told> {
    match act {
        Act::Compact => Some(session.compact(rt)),
        Act::Look => look(session),
        Act::Find(letter, generation) => {
            let id = id_of(alloc, letter)?;
            let found = kept(session.version(), &id, revision(generation)?);
            Some(Told::Kept(letter, generation, found))
        }
        _ => Some(session.write(rt, command_of(alloc, act)?)),
    }
}

fn look<X, S: Caller<X>>(session: &mut S) -> Option<Told> {
    if !session.refresh() {
        return None;
    }
    Some(Told::Content(content(session.version())))
}
