//! Epochs, one after another.
ghost use Rattle.std.specs.Prelude.{◌≡◌, true, Some, None, IfSome};
ghost use Rattle.std.specs.Coded.{Coded-set};
ghost use Rattle.std.proofs.Props.{props};
ghost use Rattle.model.specs.History.{now, successor};
ghost use Rattle.journal.specs.Held.{HoldsDump, begun};

use journal::{Appended, Journal};
use snapshots::Version;

/// An epoch that begins, with its journal.
pub struct Epoch<F: Appended> {
    /// What the database begins with: its base, and no entries.
    pub version: Version,
    /// The journal, with its first line.
    pub journal: Journal<F>,
    ghost empty: { version ≡ begun version.base } by { Coded-set version-code version (begun version.base) },
    ghost held: { HoldsDump journal (begun version.base) } by { Prim.hlevel props },
}

impl<F: Appended> Drop for Epoch<F> {
    fn drop(self) {
        let Epoch {
            version: _,
            journal: _,
        } = self;
    }
}

impl<F: Appended> Epoch<F> {
    /// The version and the journal.
    pub(crate) fn into_parts(self) -> (Version, Journal<F>)
        ensures version { result.0 ≡ begun self.version.base }
        ensures journal { HoldsDump result.1 (begun self.version.base) }
    {
        let Epoch { version, journal } = self;
        (version, journal)
    }
}

/// Where the epochs of a database come from.
pub trait Epochs<F: Appended> {
    /// It was reported that the next epoch doesn't begin.
    ghost reported: { Type 0 };

    /// Begins the epoch after one whose history is full, at this version, of which this journal has all entries, synced: over its
    /// last database, in which no session has called. Nothing where that can't be now, which is reported: until it can nothing
    /// more is written.
    fn succeed(&mut self, full: &Journal<F>, last: &Version) -> Option<Epoch<F>>
        requires held { HoldsDump full.now last.now }
        requires synced { full.now.synced ≡ full.now.place }
        ensures base { IfSome result (λ next. next.version.base ≡ Some (successor (now last.now))) }
        ensures reported { result ≡ None → reported };

    /// Writes the journal of an epoch anew, which is broken, with all entries of this version, synced. Nothing where that can't be
    /// now.
    fn rewrite(&mut self, broken: &Journal<F>, last: &Version) -> Option<Journal<F>>
        requires broken { broken.now.broken ≡ true }
        ensures held { IfSome result (λ whole. HoldsDump whole last.now) }
        ensures synced { IfSome result (λ whole. whole.synced ≡ whole.place) }
        ensures said { IfSome result (λ whole. F.said whole.taken) }
        ensures told { IfSome result (λ whole. F.told whole.taken) };

    /// The epoch ends. Wakes the workers that wait for a connection, so many of them.
    fn wake(&self, workers: u16);
}
