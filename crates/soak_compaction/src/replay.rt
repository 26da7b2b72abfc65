//! A history that is acted again in one thread.

use crate::content::sample_of;
use crate::notes::Sample;
use commands::{Entry, MAX_PLACES, Seat};
use snapshots::Version;
use std::alloc::Global;

/// A database in which a history is acted again.
trait Again {
    /// How many entries it has.
    fn place(&self) -> u64;

    /// Acts an entry's command, and says whether it is its session's next call and the reply is the same.
    fn act_again(&mut self, entry: &Entry) -> bool;

    /// Whether there is just that of the sample's document.
    fn has(&self, alloc: Global, sample: Sample) -> bool;
}

impl Again for Version {
    fn place(&self) -> u64 {
        self.place()
    }

    fn act_again(&mut self, entry: &Entry) -> bool {
        let Some(next) = acted_again(self, entry) else {
            return false;
        };
        *self = next;
        true
    }

    fn has(&self, alloc: Global, sample: Sample) -> bool {
        sample_of(alloc, self, sample.document) == Some(sample)
    }
}

/// The version after the entry's command, where that is its session's next call and the reply is the same.
fn acted_again(version: &Version, entry: &Entry) -> Option<Version> {
    let place = version.place();
    if place >= u64::from(MAX_PLACES) {
        return None;
    }
    let session = entry.seat.session();
    let seat = Seat::new(session, version.next_call(session))?;
    let next = version.act(seat, &entry.command).ok()?;
    if entry.seat.call() != seat.call() || !is_answered(&next, place + 1, entry) {
        return None;
    }
    Some(next)
}

/// Whether the reply at the place is the entry's.
fn is_answered(version: &Version, place: u64, entry: &Entry) -> bool {
    match version.entry(place) {
        Some(again) => again.reply.is_same(&entry.reply),
        None => false,
    }
}

/// Acts the entries up to a place again.
fn go_to<A: Again>(again: &mut A, history: &Version, place: u64) -> bool {
    for before in again.place()..place {
        let Some(entry) = history.entry(before + 1) else {
            return false;
        };
        if !again.act_again(entry) {
            return false;
        }
    }
    true
}

/// Acts all entries again, and compares the samples, whose places ascend.
fn go_through<A: Again>(
    alloc: Global,
    again: &mut A,
    history: &Version,
    samples: &[Sample],
) -> bool {
    for sample in samples {
        if !go_to(again, history, sample.place) || !again.has(alloc, *sample) {
            return false;
        }
    }
    go_to(again, history, history.place())
}

/// How many entries were acted again, from the empty version on, where each is answered the same and
/// each sample, whose places ascend, is what was there.
pub(crate) fn replayed(alloc: Global, history: &Version, samples: &[Sample]) -> Option<u64> {
    let mut again = Version::empty(alloc);
    if !go_through(alloc, &mut again, history, samples) {
        return None;
    }
    Some(again.place())
}
