//! A compaction that is under way.
ghost use Rattle.std.specs.Prelude.{◌≡◌, ◌≢◌, ◌↔◌, ◌+◌, ◌-◌, ◌<◌, ◌≤◌, ◌∷◌, ◌++◌, [], ℕ, List, true, false, None, Err, length, map, take, drop, min, IfOk, IfErr, option_copied};
ghost use Rattle.model.specs.Map.{entries, get};
ghost use Rattle.model.specs.Command.{Id, Entry, Compact};
ghost use Rattle.model.specs.PurgeLog.{is_overrun};
ghost use Rattle.model.specs.Database.{calls_of, compacted};
ghost use Rattle.model.specs.History.{now, extended, entry_of, Follows};
ghost use Rattle.model.specs.Compaction.{Agrees, marks_of, passed, taken_over, touched, touched_id};
ghost use Rattle.snapshots.specs.Taken.{taken_all, ids_of, IsCoherent};
ghost use Rattle.compactor.specs.Copy.{CopyView, last_id};
ghost use Rattle.compactor.specs.declared.fault.CopyFault.TheVariants.{Behind, Overrun, Memory};

use crate::fault::CopyFault;
use crate::slices::{Part, sliced};
use crate::taking::{Taken, taken_touched};
use commands::Seat;
use document_id::DocId;
use snapshots::{Records, Version};
use std::alloc::{AllocError, Global};
use std::marker::Model;

/// A copy of a version's records, stripped, that follows later versions.
///
/// It pins the version that it was started with, and from the first `catch_up` on the last version
/// that it was given.
pub struct Compaction {
    alloc: Global,
    seen: Version,
    last: Option<DocId>,
    left: u64,
    records: Records,
    update_mark: u64,
    purge_mark: u64,
    visited: u64,
}

impl Drop for Compaction {
    fn drop(self) {
        let Compaction {
            alloc: _,
            seen: _,
            last: _,
            left: _,
            records: _,
            update_mark: _,
            purge_mark: _,
            visited: _,
        } = self;
    }
}

impl Model for Compaction {
    ghost use Rattle.std.specs.Coded.{codes};
    ghost use Rattle.model.specs.JsonCode.{coded_members};
    ghost use Rattle.model.specs.History.{now};
    ghost use Rattle.compactor.specs.Copy.{CopyView, copy_of, IsCopy};

    ghost Value = { CopyView };

    ghost coded = { Prim.hlevel (codes, coded_members) };

    ghost view = { λ c. copy_of c.seen c.left c.records.docs c.update_mark c.purge_mark c.visited };

    ghost invariant = { λ c. IsCopy (now c.seen) c.last c.left c.records (record { update = c.update_mark; purge = c.purge_mark }) };
}

impl Compaction {
    /// A copy of which nothing is made yet. It pins the version.
    pub fn start(alloc: Global, version: &Version) -> Result<Compaction, CopyFault>
        ensures started { IfOk result (λ c. c ≡ record {
          seen = version.now;
          left = length (entries (now version.now).docs);
          docs = (compacted (now version.now)).docs;
          marks = marks_of (now version.now);
          visited = 0;
        }) }
        ensures memory { IfErr result (λ f. f ≡ Memory) }
    {
        let database = version.database();
        let documents = database.documents();
        let update_mark = documents.update_seq();
        let records = Records::new(alloc).up_to(update_mark);
        let seen = version.share()?;
        Ok(Compaction {
            alloc,
            seen,
            last: None,
            left: documents.len(),
            records,
            update_mark,
            purge_mark: database.purges().purge_seq(),
            visited: 0,
        })
    }

    /// How many records of a version the last call looked up.
    pub fn visited(&self) -> u64
        ensures { result ≡ self.now.visited }
    {
        self.visited
    }

    /// How many records are yet to be stripped.
    pub fn left(&self) -> u64
        ensures left { result ≡ self.now.left }
        ensures agrees { Agrees (get self.now.docs) self.now.marks (now self.now.seen) }
    {
        self.left
    }

    /// Strips the next `n` records, and answers how many are left.
    pub fn slice(&mut self, n: u64) -> Result<u64, CopyFault>
        ensures left { IfOk result (λ left. left ≡ self.old.left - n) }
        ensures sliced { IfOk result (λ left. self.new ≡ record self.old { left = left; visited = self.new.visited }) }
        ensures visits { self.new.visited ≤ min n self.old.left }
        ensures visited { IfOk result (λ _. self.new.visited ≡ min n self.old.left) }
        ensures memory { IfErr result (λ f. (f ≡ Memory) × (self.new ≡ record self.old { visited = self.new.visited })) }
    {
        let n = n.min(self.left);
        if n == 0 {
            self.visited = 0;
            return Ok(self.left);
        }
        let mut visited = 0;
        let outcome = next_part(
            self.alloc,
            &mut visited,
            &self.seen,
            &self.records,
            &self.last,
            n,
        );
        self.visited = visited;
        let part = outcome?;
        self.records = part.records;
        self.last = part.last;
        self.left -= n;
        Ok(self.left)
    }

    /// Takes over the first `n` documents that were purged or updated since, and answers how many
    /// of them are left. The version may be of a later epoch than the one that was seen.
    pub fn catch_up(&mut self, version: &Version, n: u64) -> Result<u64, CopyFault>
        requires sliced { self.old.left ≡ 0 }
        requires follows { Follows version.now self.old.seen }
        ensures left { IfOk result (λ left. left ≡ length (touched (now version.now) self.old.marks) - n) }
        ensures seen { IfOk result (λ _. (self.new.seen ≡ version.now) × (self.new.left ≡ 0)) }
        ensures passed { IfOk result (λ _. self.new.marks ≡ passed self.old.marks (take n (touched (now version.now) self.old.marks))) }
        ensures taken { IfOk result (λ _. (id : Id) → get self.new.docs id
            ≡ taken_over (get self.old.docs) (now version.now) (map touched_id (take n (touched (now version.now) self.old.marks))) id) }
        ensures visits { self.new.visited ≤ n }
        ensures visited { IfOk result (λ _. self.new.visited ≡ length (take n (touched (now version.now) self.old.marks))) }
        ensures overrun { (result ≡ Err Overrun) ↔ (is_overrun (now version.now).purges self.old.marks.purge ≡ true) }
        ensures fault { IfErr result (λ f. (f ≢ Behind) × (self.new ≡ record self.old { visited = self.new.visited })) }
    {
        let _recalled = self.seen.place();
        let _recalled = version.place();
        let Some(touched) = version.touched_since(self.update_mark, self.purge_mark) else {
            self.visited = 0;
            return Err(CopyFault::Overrun);
        };
        let mut visited = 0;
        let outcome = caught_up(
            self.alloc,
            &mut visited,
            version,
            &self.records,
            (self.update_mark, self.purge_mark),
            n,
        );
        self.visited = visited;
        let (taken, seen) = outcome?;
        self.seen = seen;
        self.records = taken.records;
        self.update_mark = taken.update_mark;
        self.purge_mark = taken.purge_mark;
        Ok(touched.saturating_sub(n))
    }

    /// The version with one compaction more: the copy, with what was touched since taken over,
    /// which is at most `slack`. The copy stays as it was. The version may be of a later epoch than
    /// the one that was seen.
    pub fn finish(
        &mut self,
        version: &Version,
        seat: Seat,
        slack: u64,
    ) -> Result<Version, CopyFault>
        requires sliced { self.old.left ≡ 0 }
        requires follows { Follows version.now self.old.seen }
        requires next { seat.call ≡ calls_of (now version.now) seat.session + 1 }
        requires room { length version.now.entries < 4294967295 }
        ensures compacted { IfOk result (λ v. v ≡ extended version.now (entry_of (now version.now) seat Compact ∷ [])) }
        ensures visits { self.new.visited ≤ slack }
        ensures visited { IfOk result (λ _. self.new.visited ≡ length (touched (now version.now) self.old.marks)) }
        ensures overrun { (result ≡ Err Overrun) ↔ (is_overrun (now version.now).purges self.old.marks.purge ≡ true) }
        ensures behind { (result ≡ Err Behind) ↔ ((is_overrun (now version.now).purges self.old.marks.purge ≡ false)
            × (slack < length (touched (now version.now) self.old.marks))) }
        ensures kept { self.new ≡ record self.old { visited = self.new.visited } }
    {
        let _recalled = self.seen.place();
        let _recalled = version.place();
        self.visited = 0;
        let Some(touched) = version.touched_since(self.update_mark, self.purge_mark) else {
            return Err(CopyFault::Overrun);
        };
        if touched > slack {
            return Err(CopyFault::Behind);
        }
        let mut visited = 0;
        let outcome = taken_from(
            self.alloc,
            &mut visited,
            version,
            &self.records,
            (self.update_mark, self.purge_mark),
            slack,
        );
        self.visited = visited;
        let taken = outcome?;
        let finished = version.with_records(seat, taken.records)?;
        Ok(finished)
    }
}

/// The next part of a copy.
fn next_part(
    alloc: Global,
    visited: &mut u64,
    version: &Version,
    records: &Records,
    last: &Option<DocId>,
    n: u64,
) -> Result<Part, AllocError>
    requires count { visited.old + n ≤ u64.MAX }
    requires coherent { IsCoherent records.now.docs (now version.now) }
    requires upto { records.now.update_seq ≡ (now version.now).update_seq }
    ensures docs { IfOk result (λ r. (k : ℕ) → k ≤ length (entries (now version.now).docs) → last.now ≡ last_id None (take k (ids_of (now version.now).docs))
        → r.records ≡ record records.now { docs = taken_all records.now.docs (now version.now) (take n (drop k (ids_of (now version.now).docs))) }) }
    ensures last { IfOk result (λ r. (k : ℕ) → k ≤ length (entries (now version.now).docs) → last.now ≡ last_id None (take k (ids_of (now version.now).docs))
        → r.last ≡ last_id None (take (k + n) (ids_of (now version.now).docs))) }
    ensures coherent { IfOk result (λ r. IsCoherent r.records.docs (now version.now)) }
    ensures visits { visited.new ≤ visited.old + n }
    ensures visited { IfOk result (λ _. (k : ℕ) → k ≤ length (entries (now version.now).docs) → last.now ≡ last_id None (take k (ids_of (now version.now).docs))
        → visited.new ≡ visited.old + length (take n (drop k (ids_of (now version.now).docs)))) }
{
    let records = records.share()?;
    let last = share_id(last)?;
    let part = sliced(alloc, visited, version, Part { records, last }, n)?;
    Ok(part)
}

fn share_id(id: &Option<DocId>) -> Result<Option<DocId>, AllocError>
    ensures { IfOk result (λ shared. shared ≡ id.now) }
{
    match id {
        Some(id) => Ok(Some(id.share()?)),
        None => Ok(None),
    }
}

/// The copy with the first `n` touched documents as that version has them, and the marks past them.
fn taken_from(
    alloc: Global,
    visited: &mut u64,
    version: &Version,
    records: &Records,
    marks: (u64, u64),
    n: u64,
) -> Result<Taken, AllocError>
    requires count { visited.old + n ≤ u64.MAX }
    requires coherent { IsCoherent records.now.docs (now version.now) }
    requires upto { records.now.update_seq ≤ (now version.now).update_seq }
    ensures taken { IfOk result (λ r. r.records ≡ record {
      docs = taken_all records.now.docs (now version.now) (map touched_id (take n (touched (now version.now) (record { update = marks.0; purge = marks.1 }))));
      update_seq = (now version.now).update_seq;
    }) }
    ensures marks { IfOk result (λ r. record { update = r.update_mark; purge = r.purge_mark }
        ≡ passed (record { update = marks.0; purge = marks.1 }) (take n (touched (now version.now) (record { update = marks.0; purge = marks.1 })))) }
    ensures coherent { IfOk result (λ r. IsCoherent r.records.docs (now version.now)) }
    ensures visits { visited.new ≤ visited.old + n }
    ensures visited { IfOk result (λ _. visited.new ≡ visited.old + length (take n (touched (now version.now) (record { update = marks.0; purge = marks.1 })))) }
{
    let records = records.share()?;
    let records = records.up_to(version.database().documents().update_seq());
    let start = Taken {
        records,
        update_mark: marks.0,
        purge_mark: marks.1,
    };
    let taken = taken_touched(alloc, visited, version, start, n)?;
    Ok(taken)
}

/// The same, and a share of the version.
fn caught_up(
    alloc: Global,
    visited: &mut u64,
    version: &Version,
    records: &Records,
    marks: (u64, u64),
    n: u64,
) -> Result<(Taken, Version), AllocError>
    requires count { visited.old + n ≤ u64.MAX }
    requires coherent { IsCoherent records.now.docs (now version.now) }
    requires upto { records.now.update_seq ≤ (now version.now).update_seq }
    ensures taken { IfOk result (λ r. r.0.records ≡ record {
      docs = taken_all records.now.docs (now version.now) (map touched_id (take n (touched (now version.now) (record { update = marks.0; purge = marks.1 }))));
      update_seq = (now version.now).update_seq;
    }) }
    ensures marks { IfOk result (λ r. record { update = r.0.update_mark; purge = r.0.purge_mark }
        ≡ passed (record { update = marks.0; purge = marks.1 }) (take n (touched (now version.now) (record { update = marks.0; purge = marks.1 })))) }
    ensures coherent { IfOk result (λ r. IsCoherent r.0.records.docs (now version.now)) }
    ensures seen { IfOk result (λ r. r.1 ≡ version.now) }
    ensures visits { visited.new ≤ visited.old + n }
    ensures visited { IfOk result (λ _. visited.new ≡ visited.old + length (take n (touched (now version.now) (record { update = marks.0; purge = marks.1 })))) }
{
    let taken = taken_from(alloc, visited, version, records, marks, n)?;
    let seen = version.share()?;
    Ok((taken, seen))
}
