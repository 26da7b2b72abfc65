//! What a look answers.
ghost use Rattle.std.specs.Arc.{arc_value};
ghost use Rattle.std.specs.Prelude.{◌≡◌, ℕ, length, IfOk, IfSome};
ghost use Rattle.model.specs.History.{IsLegal, base_of};
ghost use Rattle.model.specs.World.{Asked};
ghost use Rattle.model.specs.Told.{Tells};
ghost use Rattle.version_log.specs.Histories.{newest, IsNewest};

use queries::{Answer, Query};
use snapshots::Version;
use std::alloc::{AllocError, Global};
use std::marker::Model;
use std::sync::Arc;
use version_log::{Front, Naming};

/// A version that a session has seen, which never changes. Its queries wait for nobody. Contracts see
/// its history.
pub struct Snapshot<J: Naming> {
    /// All snapshots of a session that have it own one block of memory, of which no other session's snapshots count
    /// the owners; or it is the published one, where that block was refused.
    version: Arc<Version, Global>,
    front: Front<J>,
}

impl<J: Naming> Drop for Snapshot<J> {
    fn drop(self) {
        let Snapshot {
            version: _,
            front: _,
        } = self;
    }
}

impl<J: Naming> Model for Snapshot<J> {
    ghost use Rattle.std.specs.Arc.{arc_value};
    ghost use Rattle.std.specs.Prelude.{List};
    ghost use Rattle.std.specs.Coded.{codes};
    ghost use Rattle.model.specs.JsonCode.{coded_members};
    ghost use Rattle.model.specs.Command.{Entry};
    ghost use Rattle.version_log.specs.Histories.{newest, IsNewest};

    ghost Value = { List Entry };

    ghost coded = { Prim.hlevel (codes, coded_members) };

    ghost view = { λ s. newest s.front };

    ghost invariant = { λ s. IsNewest J.base (arc_value s.version) s.front };
}

impl<J: Naming> Snapshot<J> {
    pub(crate) fn new(version: Arc<Version, Global>, front: Front<J>) -> Snapshot<J>
        requires newest { IsNewest J.base (arc_value version) front }
        ensures { result ≡ newest front }
    {
        Snapshot { version, front }
    }

    /// How many entries its history has.
    pub fn place(&self) -> u64
        ensures place { result ≡ length self.now }
        ensures legal { IsLegal (base_of J.base) self.now }
    {
        self.version.place()
    }

    /// The version, for the calls of `changes_feed`.
    pub fn version(&self) -> &Version
        ensures { result.now ≡ record { base = J.base; entries = self.now } }
    {
        &self.version
    }

    /// What its history answers to a query, at its place.
    pub fn answer(&self, alloc: Global, query: &Query) -> Result<Answer, AllocError>
        ensures told { IfOk result (λ answer. (session : ℕ)
            → Tells (base_of J.base) self.now (Asked session query.now (length self.now) answer)) }
    {
        changes_feed::answer(alloc, &self.version, query)
    }
}

/// A share of the version in a block of its own, so that its owners are counted apart from those of others.
pub(crate) fn shared_apart(alloc: Global, version: &Version) -> Option<Arc<Version, Global>>
    ensures { IfSome result (λ own. arc_value own ≡ version.now) }
{
    Arc::new(alloc, version.share().ok()?).ok()
}
