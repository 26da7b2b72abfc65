//! A session: what it has seen, and its calls with a receipt.
ghost use Rattle.std.specs.Arc.{arc_value};
ghost use Rattle.std.specs.Prelude.{◌≡◌, ◌↔◌, ◌⊎◌, ◌+◌, ◌<◌, ◌≤◌, [], length, true, Err, IfOk, IfErr, IfSome, IsTrue, OnErr};
ghost use mathlib.Core.List.{IsPrefix};
ghost use Rattle.model.specs.History.{IsLegal, of_session, base_of};
ghost use Rattle.version_log.specs.Histories.{newest, Grows, IsNewest};
ghost use Rattle.sessions.specs.Known.{Known, seen, fresh, SeesOwn, HasReceipts};
ghost use Rattle.sessions.specs.Calls.{Looks};
ghost use Rattle.sessions.specs.declared.fault.Fault.TheVariants as fault;

use crate::ended::Ended;
use crate::fault::Fault;
use crate::shared::Shared;
use crate::snapshot::{Snapshot, shared_apart};
use crossbeam_utils::CachePadded;
use job_queue::Producer;
use snapshots::Version;
use std::alloc::{AllocError, Global};
use std::marker::Model;
use std::sync::Arc;
use updater_state::{Caller, Opening};
use version_log::{Front, Published, Reader};

/// A session over what the updater holds, `C`. Contracts see what it has seen, and its receipts.
pub struct Session<C: Drop, J: Opening, G: Drop> {
    pub(crate) alloc: Global,
    pub(crate) number: u16,
    /// How many receipts it has.
    pub(crate) calls: u64,
    pub(crate) lost: bool,
    /// How often its last wait looked.
    pub(crate) waited: u64,
    /// How often its waits looked one after another, for the pauses between these looks.
    pub(crate) paced: u64,
    /// What was published with its last receipt. It takes no room but a count.
    pub(crate) receipted: Front<J>,
    pub(crate) latest: Published<J>,
    /// A share of that version, where a look took one: the looks that see the same one are owners of it.
    pub(crate) looked: Option<Arc<Version, Global>>,
    /// Each look writes to it, and other sessions may lie beside this one.
    pub(crate) reader: CachePadded<Reader<J>>,
    /// What the updater knows it by, which counts the entries that it learns of.
    pub(crate) caller: Caller<J>,
    pub(crate) shared: Arc<Shared<C, J, G>, Global>,
}

impl<C: Drop, J: Opening, G: Drop> Drop for Session<C, J, G> {
    fn drop(self) {
        let Session {
            alloc: _,
            number: _,
            calls: _,
            lost: _,
            waited: _,
            paced: _,
            receipted: _,
            latest: _,
            looked: _,
            reader: _,
            caller: _,
            shared: _,
        } = self;
    }
}

impl<C: Drop, J: Opening, G: Drop> Model for Session<C, J, G> {
    ghost use Rattle.std.specs.Arc.{arc_value};
    ghost use Rattle.std.specs.Coded.{codes};
    ghost use Rattle.std.specs.Prelude.{option_map};
    ghost use Rattle.model.specs.JsonCode.{coded_members};
    ghost use Rattle.model.specs.History.{of_session};
    ghost use Rattle.version_log.specs.Histories.{newest};
    ghost use Rattle.sessions.specs.Known.{Known, Holds};

    ghost Value = { Known };

    ghost coded = { Prim.hlevel (codes, coded_members) };

    ghost view = { λ s. record { number = s.number; published = s.latest; receipts = of_session s.number (newest s.receipted); pushes = s.caller.turn.pushed; waited = s.waited; tried = s.caller.behind; entered = s.caller.entered; lost = s.lost } };

    ghost invariant = { λ s. Holds J.base s.number s.calls s.lost s.latest s.receipted (option_map arc_value s.looked) s.caller };
}

impl<C: Drop, J: Opening, G: Drop> Session<C, J, G> {
    /// A session that has seen the empty history.
    pub fn new(
        alloc: Global,
        latest: Published<J>,
        reader: Reader<J>,
        producer: Producer<J>,
        shared: Arc<Shared<C, J, G>, Global>,
    ) -> Session<C, J, G>
        requires seen { latest ≡ [] }
        requires number { producer.number < 64 }
        requires unused { (producer.pushed ≡ 0) × (producer.gone ≡ 0) }
        ensures { result ≡ fresh producer.number }
    {
        Session {
            alloc,
            number: producer.number(),
            calls: 0,
            lost: false,
            waited: 0,
            paced: 0,
            receipted: latest.front().again(),
            latest,
            looked: None,
            reader: CachePadded::new(reader),
            caller: Caller::new(producer),
            shared,
        }
    }

    /// The number of entries that the session has seen.
    pub fn place(&self) -> u64
        ensures place { result ≡ length (seen self.now) }
        ensures legal { IsLegal (base_of J.base) (seen self.now) }
        ensures own { SeesOwn self.now }
        ensures receipts { HasReceipts self.now }
    {
        self.latest.version().place()
    }

    /// The version that the session has seen.
    pub fn version(&self) -> &Version
        ensures { result.now ≡ record { base = J.base; entries = seen self.now } }
    {
        self.latest.version()
    }

    /// What the session has seen last, and what is left of it.
    pub fn into_end(self) -> (Published<J>, Ended<J>)
        ensures latest { result.0 ≡ self.published }
        ensures grows { Grows J.base result.0 }
        ensures end { result.1 ≡ self }
    {
        let Session {
            alloc: _,
            number,
            calls,
            lost,
            waited,
            paced: _,
            receipted,
            latest,
            looked: _,
            reader: _,
            caller,
            shared: _,
        } = self;
        let _recalled = latest.publication();
        let seen = latest.front().again();
        let ended = Ended {
            number,
            calls,
            pushes: caller.pushed(),
            waited,
            tried: caller.behind(),
            entered: caller.entered(),
            lost,
            receipted,
            seen,
        };
        (latest, ended)
    }

    /// Sees what is published now, and nothing else: where that was seen already, it writes to its own
    /// place among the readers alone, which a publication reads. It waits for nobody and takes no memory.
    pub fn refresh(&mut self) -> Result<(), Fault>
        ensures looks { IfOk result (λ _. Looks J.base self.old self.new) }
        ensures kept { OnErr result (self.new ≡ self.old) }
        ensures lost { (result ≡ Err fault.Lost) ↔ (self.old.lost ≡ true) }
        ensures refused { IfErr result (λ e. (e ≡ fault.Lost) ⊎ (e ≡ fault.EntryRefused)) }
    {
        self.begin_pauses();
        self.see_latest()
    }

    /// Sees what is published now.
    pub(crate) fn see_latest(&mut self) -> Result<(), Fault>
        ensures looks { IfOk result (λ _. Looks J.base self.old self.new) }
        ensures kept { OnErr result (self.new ≡ self.old) }
        ensures lost { (result ≡ Err fault.Lost) ↔ (self.old.lost ≡ true) }
        ensures refused { IfErr result (λ e. (e ≡ fault.Lost) ⊎ (e ≡ fault.EntryRefused)) }
    {
        if self.lost {
            return Err(Fault::Lost);
        }
        let Ok(later) = self.later_of_own() else {
            return Err(Fault::EntryRefused);
        };
        let Some(found) = later else {
            let _recalled = self.place();
            return Ok(());
        };
        self.see(found);
        Ok(())
    }

    /// Sees what is published now, and keeps a share of it apart from the session. It waits for nobody
    /// and needs no memory; where there is some, the next looks that see the same version take less time.
    pub fn look(&mut self) -> Result<Snapshot<J>, Fault>
        ensures snapshot { IfOk result (λ snapshot. snapshot ≡ seen self.new) }
        ensures looks { IfOk result (λ _. Looks J.base self.old self.new) }
        ensures kept { OnErr result (self.new ≡ self.old) }
        ensures lost { (result ≡ Err fault.Lost) ↔ (self.old.lost ≡ true) }
        ensures refused { IfErr result (λ e. (e ≡ fault.Lost) ⊎ (e ≡ fault.EntryRefused)) }
    {
        if self.lost {
            return Err(Fault::Lost);
        }
        let Ok(later) = self.later_of_own() else {
            return Err(Fault::EntryRefused);
        };
        let Some(found) = later else {
            return self.look_again();
        };
        let Ok(version) = found.owned_version() else {
            return Err(Fault::EntryRefused);
        };
        self.see(found);
        Ok(self.snapshot_of(version))
    }

    /// A look that sees what was seen already.
    fn look_again(&mut self) -> Result<Snapshot<J>, Fault>
        ensures snapshot { IfOk result (λ snapshot. snapshot ≡ seen self.new) }
        ensures looks { IfOk result (λ _. Looks J.base self.old self.new) }
        ensures same { self.new ≡ self.old }
        ensures refused { IfErr result (λ e. e ≡ fault.EntryRefused) }
    {
        let _recalled = self.place();
        if let Some(again) = self.looked_again() {
            return Ok(Snapshot::new(again, self.latest.front().again()));
        }
        let Ok(version) = self.latest.owned_version() else {
            return Err(Fault::EntryRefused);
        };
        Ok(self.snapshot_of(version))
    }

    /// One more owner of what a look took.
    fn looked_again(&self) -> Option<Arc<Version, Global>>
        ensures { IfSome result (λ again. IsNewest J.base (arc_value again) self.now.published) }
    {
        Arc::try_clone(self.looked.as_ref()?).ok()
    }

    /// A snapshot of the version that was seen. Where memory is not refused it owns a share in a block of its own, and
    /// the next looks are owners of the same one.
    fn snapshot_of(&mut self, version: Arc<Version, Global>) -> Snapshot<J>
        requires seen { IsNewest J.base (arc_value version) self.old.published }
        ensures snapshot { result ≡ seen self.new }
        ensures same { self.new ≡ self.old }
    {
        let front = self.latest.front().again();
        let Some(own) = shared_apart(self.alloc, &version) else {
            return Snapshot::new(version, front);
        };
        if let Ok(again) = Arc::try_clone(&own) {
            self.looked = Some(again);
        }
        Snapshot::new(own, front)
    }

    /// What is published now, where that is later than what was seen.
    pub(crate) fn later(&mut self) -> Result<Option<Published<J>>, AllocError>
        ensures same { self.new ≡ self.old }
        ensures later { IfOk result (λ found. IfSome found (λ p. IsPrefix self.old.published p)) }
        ensures grows { IfOk result (λ found. IfSome found (λ p. Grows J.base p)) }
    {
        self.reader.look_past(&self.latest)
    }

    /// What is published now and to be seen, where that is later than what was seen.
    fn later_of_own(&mut self) -> Result<Option<Published<J>>, Fault>
        ensures same { self.new ≡ self.old }
        ensures later { IfOk result (λ found. IfSome found (λ p. IsPrefix self.old.published p)) }
        ensures grows { IfOk result (λ found. IfSome found (λ p. Grows J.base p)) }
        ensures own { IfOk result (λ found. IfSome found (λ p. SeesOwn (record self.old { published = p }))) }
        ensures refused { IfErr result (λ e. e ≡ fault.EntryRefused) }
    {
        let Ok(later) = self.later() else {
            return Err(Fault::EntryRefused);
        };
        let Some(found) = later else {
            return Ok(None);
        };
        if !self.has_own(&found) {
            return Err(Fault::EntryRefused);
        }
        Ok(Some(found))
    }

    /// Whether the session's entries in a later version are as many as its receipts. They are then those
    /// with a receipt.
    pub(crate) fn has_own(&self, found: &Published<J>) -> bool
        requires later { IsPrefix self.now.published found.now }
        requires grows { Grows J.base found.now }
        ensures { IsTrue result → SeesOwn (record self.now { published = found.now }) }
    {
        calls_of(found.version(), self.number) == self.calls
    }

    /// This has been seen.
    pub(crate) fn see(&mut self, found: Published<J>)
        requires later { IsPrefix self.old.published found }
        requires grows { Grows J.base found }
        requires own { SeesOwn (record self.old { published = found }) }
        ensures seen { self.new.published ≡ found }
        ensures looks { Looks J.base self.old self.new }
    {
        self.looked = None;
        self.latest = found;
    }
}

/// The later of two published versions.
pub fn later_of<J: Opening>(mine: Published<J>, theirs: Published<J>) -> Published<J>
    requires grows { Grows J.base mine × Grows J.base theirs }
    ensures extends { IsPrefix mine result × IsPrefix theirs result }
    ensures grows { Grows J.base result }
{
    if mine.precedes(&theirs) {
        return theirs;
    }
    mine
}

/// How many calls of a session the version has.
pub(crate) fn calls_of(version: &Version, session: u16) -> u64
    ensures { result ≡ length (of_session session version.now.entries) }
{
    let _recalled = version.place();
    version.database().calls_of(session)
}
