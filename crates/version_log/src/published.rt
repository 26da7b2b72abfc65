//! What readers take: a version, with the publications up to it.
ghost use Rattle.std.specs.Arc.{arc_value};
ghost use Rattle.std.specs.Prelude.{◌≡◌, ◌≤◌, length, IfOk, IfSome, MatchBool};
ghost use mathlib.Core.List.{IsPrefix};
ghost use Rattle.version_log.specs.Histories.{newest, Grows, IsNewest};
ghost use Rattle.version_log.specs.Stores.{named};

use crate::front::{Front, History, Law, Naming};
use left_right::Absorb;
use logbook::Seen;
use snapshots::Version;
use std::alloc::{AllocError, Global};
use std::marker::Model;
use std::sync::Arc;

/// A published version that doesn't know its store, so that it has no type parameter. Contracts see
/// its store, and the published histories.
#[derive(Drop)]
pub struct Shown {
    /// All that was taken from one publication owns the same one.
    version: Arc<Version, Global>,
    count: u64,
    seen: Seen<History, u64, Law>,
}

impl Model for Shown {
    ghost use Rattle.std.specs.Arc.{arc_value};
    ghost use Rattle.std.specs.Prelude.{◌≡◌, List, length};
    ghost use Rattle.std.specs.Coded.{codes, coded×};
    ghost use Rattle.model.specs.JsonCode.{coded_members};
    ghost use Rattle.model.specs.Command.{Entry};
    ghost use Rattle.version_log.specs.Histories.{newest, Grows};
    ghost use Rattle.version_log.specs.Stores.{Store, named, coded_store};

    ghost Value = { Store × List (List Entry) };

    ghost coded = { coded× (coded_store (Prim.hlevel (codes, coded_members))) (Prim.hlevel (codes, coded_members)) };

    ghost view = { λ s. (named s.seen.book (arc_value s.version).base, s.seen.log) };

    ghost invariant = { λ s. ((arc_value s.version).entries ≡ newest s.seen.log) × (s.count ≡ length s.seen.log) × Grows (arc_value s.version).base s.seen.log };
}

impl Shown {
    /// The same version. It takes no memory.
    pub fn share(&self) -> Result<Shown, AllocError>
        ensures same { IfOk result (λ s. s ≡ self.now) }
    {
        Ok(Shown {
            version: Arc::try_clone(&self.version)?,
            count: self.count,
            seen: self.seen.again(),
        })
    }

    /// The same version, unless it is that of so many publications. It takes no memory.
    pub(crate) fn share_unless(&self, count: u64) -> Result<Option<Shown>, AllocError>
        ensures same { IfOk result (λ found. IfSome found (λ s. s ≡ self.now)) }
    {
        if self.count == count {
            return Ok(None);
        }
        let shared = self.share()?;
        Ok(Some(shared))
    }
}

impl Absorb<Shown> for Shown {
    type State = Shown;

    ghost state = { λ s. s };

    ghost applied = { λ old new. new };

    fn absorb_first(&mut self, operation: &Shown, _other: &Shown) -> Result<(), AllocError> {
        *self = operation.share()?;
        Ok(())
    }

    fn absorb_second(&mut self, operation: Shown, _other: &Shown) -> Result<(), Shown> {
        *self = operation;
        Ok(())
    }
}

/// A published version of the store `J`. Contracts see the published histories, of which its own is
/// the newest.
pub struct Published<J: Naming> {
    /// All that was taken from one publication owns the same one.
    version: Arc<Version, Global>,
    front: Front<J>,
}

impl<J: Naming> Drop for Published<J> {
    fn drop(self) {
        let Published {
            version: _,
            front: _,
        } = self;
    }
}

impl<J: Naming> Model for Published<J> {
    ghost use Rattle.std.specs.Arc.{arc_value};
    ghost use Rattle.std.specs.Prelude.{List};
    ghost use Rattle.std.specs.Coded.{codes};
    ghost use Rattle.model.specs.JsonCode.{coded_members};
    ghost use Rattle.model.specs.Command.{Entry};
    ghost use Rattle.version_log.specs.Histories.{IsNewest};

    ghost Value = { List (List Entry) };

    ghost coded = { Prim.hlevel (codes, coded_members) };

    ghost view = { λ p. p.front };

    ghost invariant = { λ p. IsNewest J.base (arc_value p.version) p.front };
}

impl<J: Naming> Published<J> {
    /// The version that the publications up to `front` end with.
    pub fn new(version: Arc<Version, Global>, front: Front<J>) -> Published<J>
        requires newest { IsNewest J.base (arc_value version) front }
        ensures front { result ≡ front }
    {
        Published { version, front }
    }

    /// What is shown, under the store's name.
    pub fn named(shown: Shown) -> Published<J>
        requires name { shown.0 ≡ named J.book J.base }
        ensures same { result ≡ shown.1 }
    {
        let Shown {
            version,
            count,
            seen,
        } = shown;
        Published {
            version,
            front: Front::from_parts(count, seen),
        }
    }

    /// The same version, without the store's name. It takes no memory.
    pub fn shown(&self) -> Result<Shown, AllocError>
        ensures name { IfOk result (λ s. s.0 ≡ named J.book J.base) }
        ensures same { IfOk result (λ s. s.1 ≡ self.now) }
    {
        let version = Arc::try_clone(&self.version)?;
        let count = self.front.count();
        let seen = self.front.seen();
        Ok(Shown {
            version,
            count,
            seen,
        })
    }

    /// The version, whose history is the newest of the published ones.
    pub fn version(&self) -> &Version
        ensures newest { result.now ≡ record { base = J.base; entries = newest self.now } }
    {
        &self.version
    }

    /// The version once more, owned. It takes no memory.
    pub fn owned_version(&self) -> Result<Arc<Version, Global>, AllocError>
        ensures newest { IfOk result (λ version. IsNewest J.base (arc_value version) self.now) }
    {
        Arc::try_clone(&self.version)
    }

    /// The beginning of the log of publications that the version is at the end of.
    pub fn front(&self) -> &Front<J>
        ensures front { result.now ≡ self.now }
    {
        &self.front
    }

    /// The number of publications up to it. Each added an entry at least.
    pub fn publication(&self) -> u64
        ensures count { result ≡ length self.now }
        ensures few { length self.now ≤ length (newest self.now) }
        ensures grows { Grows J.base self.now }
    {
        self.front.count()
    }

    /// The same version. It takes no memory.
    pub fn share(&self) -> Result<Published<J>, AllocError>
        ensures same { IfOk result (λ p. p ≡ self.now) }
    {
        Ok(Published {
            version: Arc::try_clone(&self.version)?,
            front: self.front.again(),
        })
    }

    /// Whether the other one is this one or a later one. Otherwise this one is the later.
    pub fn precedes(&self, other: &Published<J>) -> bool
        ensures published { MatchBool result (IsPrefix self.now other.now) (IsPrefix other.now self.now) }
        ensures histories { MatchBool result (IsPrefix (newest self.now) (newest other.now)) (IsPrefix (newest other.now) (newest self.now)) }
    {
        self.front.precedes(&other.front)
    }
}
