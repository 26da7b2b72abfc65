//! A batch is put into the history, or given up.
ghost use Rattle.std.specs.Prelude.{◌≡◌, ◌≤◌, ◌+◌, ◌&&◌, nat_lt, nat_le, drop, length, map, IfOk, OnOk, OnErr, option_map};
ghost use Rattle.model.specs.History.{now, extended, batch_entries};
ghost use Rattle.model.specs.World.{Put, GiveUp};
ghost use Rattle.snapshots.specs.Version.{entry_at};
ghost use Rattle.updater.specs.Batches.{MayFollow};
ghost use Rattle.machine.specs.Events.{completed_of, wrote_at, wrote_from};
ghost use Rattle.machine.specs.States.{stepped};
ghost use Rattle.machine.specs.Views.{seen_by};

use crate::completed::Completed;
use crate::machine::Machine;
use crate::views::{Seen, free_all, see_all, seen_by_all};
use commands::{Copied, Job};
use snapshots::Version;
use std::alloc::{AllocError, Global};
use std::mem::replace;
use updater::apply_batch;

/// The completed call of the entry at a place, if there is one.
pub(crate) fn wrote(
    alloc: Global,
    version: &Version,
    place: u64,
) -> Result<Option<Completed>, AllocError>
    ensures { IfOk result (λ found. option_map completed_of found ≡ option_map (wrote_at place) (entry_at version.now.entries place)) }
{
    let Some(entry) = version.entry(place) else {
        return Ok(None);
    };
    Ok(Some(Completed::Wrote {
        seat: entry.seat,
        command: entry.command.copy(alloc)?,
        place,
        reply: entry.reply.copy(alloc)?,
    }))
}

/// The completed calls of the entries behind a place.
pub(crate) fn wrote_after(
    alloc: Global,
    version: &Version,
    after: u64,
) -> Result<Vec<Completed>, AllocError>
    requires { after ≤ length version.now.entries }
    ensures { IfOk result (λ calls. map completed_of calls.items ≡ wrote_from after (drop after version.now.entries)) }
{
    let mut calls = Vec::new(alloc);
    for place in after..version.place() {
        let Some(call) = wrote(alloc, version, place + 1)? else {
            unreachable!()
        };
        calls.push(call)?;
    }
    Ok(calls)
}

/// A version that is to be the last, with what its entries complete and who is to see it.
#[derive(Drop)]
pub(crate) struct Next {
    pub(crate) version: Version,
    pub(crate) calls: Vec<Completed>,
    pub(crate) seen: Vec<Seen>,
}

/// The version after the batch.
fn applied(alloc: Global, version: &Version, jobs: &[Job]) -> Result<Next, AllocError>
    requires next { MayFollow (now version.now) jobs.now }
    requires room { length version.now.entries + length jobs.now ≤ 4294967295 }
    ensures version { IfOk result (λ n. n.version ≡ extended version.now (batch_entries (now version.now) jobs.now)) }
    ensures calls { IfOk result (λ n. map completed_of n.calls.items ≡ wrote_from (length version.now.entries) (batch_entries (now version.now) jobs.now)) }
    ensures seen { IfOk result (λ n. n.seen.items ≡ seen_by n.version jobs.now) }
{
    let next = apply_batch(version, jobs)?;
    let calls = wrote_after(alloc, &next, version.place())?;
    let seen = seen_by_all(alloc, &next, jobs)?;
    Ok(Next {
        version: next,
        calls,
        seen,
    })
}

pub(crate) fn put_in_place(version: &mut Version, next: Version)
    ensures { version.new ≡ next }
{
    let _older = replace(version, next);
}

impl Machine {
    /// Whether the batch is not empty and leaves no place missing.
    fn may_put(&self) -> bool
        ensures { result ≡ (nat_lt 0 (length self.now.world.batch) && nat_le (length self.now.world.history + length self.now.world.batch) self.now.config.max_places) }
    {
        let limits = self.config.limits();
        let jobs = self.batch.len() as u64;
        jobs > 0 && jobs <= (limits.max_places as u64).saturating_sub(self.version.place())
    }

    /// The batch's entries go last in the history, in its order, where they may.
    pub(crate) fn put(&mut self) -> Result<(), AllocError>
        ensures stepped { OnOk result (self.new ≡ stepped self.old Put) }
        ensures kept { OnErr result (self.new ≡ self.old) }
    {
        if !self.may_put() {
            return Ok(());
        }
        let Next {
            version,
            mut calls,
            seen,
        } = applied(self.alloc, &self.version, &self.batch)?;
        self.completed.append(&mut calls)?;
        see_all(&mut self.views, seen);
        put_in_place(&mut self.version, version);
        self.batch.clear();
        Ok(())
    }

    /// The batch's jobs are dropped, and their sessions are free.
    pub(crate) fn give_up(&mut self)
        ensures { self.new ≡ stepped self.old GiveUp }
    {
        free_all(&mut self.views, &self.batch);
        self.batch.clear();
    }
}
