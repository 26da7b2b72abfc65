//! A compaction: its start, its slices, its catching up and its end.
ghost use Rattle.std.specs.Prelude.{◌≡◌, ◌↔◌, ◌<◌, ◌+◌, ◌-◌, ◌==◌, ◌&&◌, ◌∷◌, [], nat_lt, is_none, unwrap_or, true, false, not, Some, None, Err, IfOk, OnOk, OnErr, MatchBool, length, map, option_map, take};
ghost use Rattle.model.specs.Map.{entries};
ghost use Rattle.model.specs.PurgeLog.{is_overrun};
ghost use Rattle.model.specs.History.{now, extended, Extends};
ghost use Rattle.model.specs.Compaction.{marks_of, passed, touched};
ghost use Rattle.model.specs.World as model;
ghost use Rattle.model.specs.World.{free_in};
ghost use Rattle.compactor.specs.declared.fault.CopyFault.TheVariants.{Behind, Overrun};
ghost use Rattle.machine.specs.Events.{completed_of, wrote_at};
ghost use Rattle.machine.specs.States.{chronicle_in, compact_entry, open_copy, stepped, swapped_in};

use crate::batches::{Next, put_in_place, wrote_after};
use crate::machine::Machine;
use crate::views::{is_free, see_all, seen_by_one, set_free};
use commands::Seat;
use compactor::{Compaction, CopyFault};
use snapshots::Version;
use std::alloc::{AllocError, Global};
use std::mem::replace;

/// A compaction that is under way, and whose it is.
#[derive(Drop)]
pub(crate) struct Copying {
    pub(crate) session: u16,
    pub(crate) compaction: Compaction,
}

/// Puts a compaction where there was none.
fn begin(copy: &mut Option<Copying>, copying: Copying)
    ensures { copy.new ≡ Some copying }
{
    let _none = replace(copy, Some(copying));
}

/// Ends the compaction.
fn end(copy: &mut Option<Copying>)
    ensures { copy.new ≡ None }
{
    let _ended = copy.take();
}

/// A compaction of the session, which has seen the version.
fn started(alloc: Global, version: &Version, session: u16) -> Result<Copying, AllocError>
    ensures opened { IfOk result (λ k. open_copy k ≡ record {
      session = session;
      left = length (entries (now version.now).docs);
      marks = marks_of (now version.now);
    }) }
    ensures seen { IfOk result (λ k. k.compaction.seen ≡ version.now) }
{
    let Ok(compaction) = Compaction::start(alloc, version) else {
        return Err(AllocError);
    };
    Ok(Copying {
        session,
        compaction,
    })
}

/// Strips the next `n` records.
fn slice_next(copying: &mut Copying, n: u64) -> Result<(), AllocError>
    ensures sliced { OnOk result (open_copy copying.new ≡ record (open_copy copying.old) { left = (open_copy copying.old).left - n }) }
    ensures kept { OnErr result (open_copy copying.new ≡ open_copy copying.old) }
    ensures seen { copying.new.compaction.seen ≡ copying.old.compaction.seen }
{
    let Ok(_left) = copying.compaction.slice(n) else {
        return Err(AllocError);
    };
    Ok(())
}

/// Takes over the first `n` documents that were touched since, and answers whether it did: not
/// where the compaction is overrun.
#[tactic(auto, using(crate::proofs::Following::follows_extended))]
fn caught_up(copying: &mut Copying, version: &Version, n: u64) -> Result<bool, AllocError>
    requires sliced { copying.old.compaction.left ≡ 0 }
    requires follows { Extends version.now copying.old.compaction.seen }
    ensures overrun { IfOk result (λ goes. not goes ≡ is_overrun (now version.now).purges copying.old.compaction.marks.purge) }
    ensures passed { IfOk result (λ goes. MatchBool goes
        (open_copy copying.new ≡ record (open_copy copying.old) { marks = passed copying.old.compaction.marks (take n (touched (now version.now) copying.old.compaction.marks)) })
        (open_copy copying.new ≡ open_copy copying.old)) }
    ensures kept { OnErr result (open_copy copying.new ≡ open_copy copying.old) }
    ensures follows { Extends version.now copying.new.compaction.seen }
{
    match copying.compaction.catch_up(version, n) {
        Ok(_left) => Ok(true),
        Err(CopyFault::Overrun) => Ok(false),
        Err(_) => Err(AllocError),
    }
}

/// The version after the compaction, with the call that its entry completes and the session that is
/// to see it.
#[tactic(auto, using(crate::proofs::Following::follows_extended))]
fn finished(
    alloc: Global,
    copying: &mut Copying,
    version: &Version,
    slack: u64,
) -> Result<Next, CopyFault>
    requires sliced { copying.old.compaction.left ≡ 0 }
    requires session { copying.old.session < 64 }
    requires follows { Extends version.now copying.old.compaction.seen }
    requires room { length version.now.entries < 4294967295 }
    ensures version { IfOk result (λ n. n.version ≡ extended version.now (compact_entry version.now copying.old.session ∷ [])) }
    ensures calls { IfOk result (λ n. map completed_of n.calls.items ≡ wrote_at (length version.now.entries + 1) (compact_entry version.now copying.old.session) ∷ []) }
    ensures seen { IfOk result (λ n. n.seen.items ≡ record { session = copying.old.session; version = n.version } ∷ []) }
    ensures overrun { (result ≡ Err Overrun) ↔ (is_overrun (now version.now).purges copying.old.compaction.marks.purge ≡ true) }
    ensures behind { (result ≡ Err Behind) ↔ ((is_overrun (now version.now).purges copying.old.compaction.marks.purge ≡ false)
        × (slack < length (touched (now version.now) copying.old.compaction.marks))) }
    ensures kept { open_copy copying.new ≡ open_copy copying.old }
    ensures follows { Extends version.now copying.new.compaction.seen }
{
    let session = copying.session;
    let Some(seat) = Seat::new(session, version.next_call(session)) else {
        unreachable!()
    };
    let next = copying.compaction.finish(version, seat, slack)?;
    let calls = wrote_after(alloc, &next, version.place())?;
    let seen = seen_by_one(alloc, &next, session)?;
    Ok(Next {
        version: next,
        calls,
        seen,
    })
}

impl Machine {
    /// Whether no compaction is under way and the session is free.
    fn may_start(&self, session: u16) -> bool
        ensures { result ≡ (is_none self.now.world.copy && free_in self.now.world.views session) }
    {
        self.copy.is_none() && is_free(&self.views, session)
    }

    /// Whether there is a compaction with no record left to strip.
    fn is_sliced(&self) -> bool
        ensures { result ≡ unwrap_or (option_map (λ k. k.left == 0) self.now.world.copy) false }
    {
        match &self.copy {
            Some(copying) => copying.compaction.left() == 0,
            None => false,
        }
    }

    fn has_place(&self) -> bool
        ensures { result ≡ nat_lt (length self.now.world.history) self.now.config.max_places }
    {
        let limits = self.config.limits();
        self.version.place() < limits.max_places as u64
    }

    /// The session starts a compaction, where it may.
    pub(crate) fn start(&mut self, session: u16) -> Result<(), AllocError>
        ensures stepped { OnOk result (self.new ≡ stepped self.old (model.Start session)) }
        ensures kept { OnErr result (self.new ≡ self.old) }
    {
        if !self.may_start(session) {
            return Ok(());
        }
        let copying = started(self.alloc, &self.version, session)?;
        begin(&mut self.copy, copying);
        set_free(&mut self.views, session, false);
        Ok(())
    }

    /// The compaction strips its next `n` records.
    pub(crate) fn slice(&mut self, n: u64) -> Result<(), AllocError>
        ensures stepped { OnOk result (self.new ≡ stepped self.old (model.Slice n)) }
        ensures kept { OnErr result (self.new ≡ self.old) }
    {
        let Some(copying) = &mut self.copy else {
            return Ok(());
        };
        slice_next(copying, n)
    }

    /// The compaction takes over the first `n` documents that were touched since, where all its
    /// records are stripped. One that is overrun ends.
    pub(crate) fn catch_up(&mut self, n: u64) -> Result<(), AllocError>
        ensures stepped { OnOk result (self.new ≡ stepped self.old (model.CatchUp n)) }
        ensures kept { OnErr result (self.new ≡ self.old) }
    {
        if !self.is_sliced() {
            return Ok(());
        }
        let Some(copying) = &mut self.copy else {
            return Ok(());
        };
        let goes = caught_up(copying, &self.version, n)?;
        if goes {
            return Ok(());
        }
        self.abort();
        Ok(())
    }

    /// The compaction's entry goes last in the history, where all its records are stripped, a place is
    /// left and at most `slack` documents were touched since. One that is overrun ends.
    pub(crate) fn swap(&mut self) -> Result<(), AllocError>
        ensures stepped { OnOk result (self.new ≡ stepped self.old model.Swap) }
        ensures kept { OnErr result (self.new ≡ self.old) }
    {
        if !self.is_sliced() {
            return Ok(());
        }
        if !self.has_place() {
            return Ok(());
        }
        let limits = self.config.limits();
        let Some(copying) = &mut self.copy else {
            return Ok(());
        };
        let session = copying.session;
        match finished(self.alloc, copying, &self.version, limits.slack as u64) {
            Ok(next) => self.swap_in(session, next),
            Err(CopyFault::Overrun) => {
                self.abort();
                Ok(())
            }
            Err(CopyFault::Behind) => Ok(()),
            Err(CopyFault::Memory) => Err(AllocError),
        }
    }

    /// The compaction's version is the last.
    fn swap_in(&mut self, session: u16, next: Next) -> Result<(), AllocError>
        requires copy { option_map (λ k. k.session) self.old.world.copy ≡ Some session }
        requires version { next.version ≡ extended (chronicle_in self.old) (compact_entry (chronicle_in self.old) session ∷ []) }
        requires calls { map completed_of next.calls.items ≡ wrote_at (length self.old.world.history + 1) (compact_entry (chronicle_in self.old) session) ∷ [] }
        requires seen { next.seen.items ≡ record { session = session; version = next.version } ∷ [] }
        requires event { stepped self.old model.Swap ≡ swapped_in self.old session }
        ensures stepped { OnOk result (self.new ≡ swapped_in self.old session) }
        ensures kept { OnErr result (self.new ≡ self.old) }
    {
        let Next {
            version,
            mut calls,
            seen,
        } = next;
        self.completed.append(&mut calls)?;
        end(&mut self.copy);
        see_all(&mut self.views, seen);
        put_in_place(&mut self.version, version);
        Ok(())
    }

    /// The compaction ends without an entry, and its session is free.
    pub(crate) fn abort(&mut self)
        ensures { self.new ≡ stepped self.old model.Abort }
    {
        let Some(copying) = &self.copy else {
            return;
        };
        let session = copying.session;
        end(&mut self.copy);
        set_free(&mut self.views, session, true);
    }
}
