//! What puts documents into records and takes them out. Each takes the records and gives them back, changed in their place
//! where nobody else has a share of them.
ghost use Rattle.std.specs.Prelude.{◌≡◌, ◌<◌, ◌≤◌, ◌+◌, Some, IfOk};
ghost use Rattle.std.specs.Ordering.{nat_cmp};
ghost use Rattle.std.specs.Cmp.Lexicographic.{slice_cmp};
ghost use Rattle.std.specs.FinMap.Entries.{put as put_entry};
ghost use Rattle.model.specs.Map.{put as put_in, refine, without};
ghost use Rattle.model.specs.Database.{stripped};
ghost use Rattle.snapshots.specs.Listing.{IsFree, placed, updated};
ghost use Rattle.snapshots.specs.Replaced.{replaced_at, live_of, without_replaced};

use crate::record::Record;
use crate::records::{Numbers, Records, Replaced, found};
use cow_index::{CowMap, Shared};
use document_id::DocId;
use revision_tree::RevTree;
use std::alloc::{AllocError, Global};

impl Records {
    /// The same documents, under a larger number.
    pub fn up_to(self, update_seq: u64) -> Records
        requires { self.update_seq ≤ update_seq }
        ensures { result ≡ record self { update_seq = update_seq } }
    {
        Records {
            by_id: self.by_id,
            by_number: self.by_number,
            live: self.live,
            update_seq,
        }
    }

    /// With this record of the document, in place of the one that it had. No other document has
    /// its number. What no other value holds is changed in its place.
    pub fn put(self, alloc: Global, id: &DocId, stored: Record) -> Result<Records, AllocError>
        requires number { (0 < stored.seq) × (stored.seq ≤ self.update_seq) }
        requires free { IsFree self.docs id.now stored.seq }
        ensures { IfOk result (λ d. d ≡ record self { docs = put_in self.docs id.now stored }) }
    {
        let update_seq = self.update_seq();
        let replaced = self.get(id).map(Replaced::of);
        self.placed(alloc, id, stored, update_seq, replaced)
    }

    /// With this tree of the document, at the next update number. What is known of the record that it had was looked up
    /// before.
    pub(crate) fn update(
        self,
        alloc: Global,
        id: &DocId,
        tree: RevTree,
        replaced: Option<Replaced>,
    ) -> Result<Records, AllocError>
        requires room { self.update_seq < u64.MAX }
        requires replaced { replaced ≡ replaced_at self.docs id.now }
        ensures { IfOk result (λ d. d ≡ updated self id.now tree) }
    {
        let _recalled = &self.by_id;
        let seq = self.update_seq + 1;
        let updated = self.placed(alloc, id, Record::new(tree, seq), seq, replaced)?;
        Ok(updated)
    }

    fn placed(
        self,
        alloc: Global,
        id: &DocId,
        stored: Record,
        update_seq: u64,
        replaced: Option<Replaced>,
    ) -> Result<Records, AllocError>
        requires more { self.update_seq ≤ update_seq }
        requires number { (0 < stored.seq) × (stored.seq ≤ update_seq) }
        requires free { IsFree self.docs id.now stored.seq }
        requires replaced { replaced ≡ replaced_at self.docs id.now }
        ensures { IfOk result (λ d. d ≡ placed self id.now stored update_seq) }
    {
        let seq = stored.seq();
        let live = self.live - live_count(replaced) + u64::from(stored.is_live());
        let stored = Shared::new(alloc, stored)?;
        Ok(Records {
            by_number: renumbered(self.by_number, replaced, id, seq, &stored)?,
            by_id: with_record(self.by_id, id, stored)?,
            live,
            update_seq,
        })
    }

    /// Each record stripped.
    pub(crate) fn stripped(&self, alloc: Global) -> Result<Records, AllocError>
        ensures { IfOk result (λ d. d ≡ record self.now { docs = refine (λ id r. Some (stripped r)) self.now.docs }) }
    {
        let _recalled = &self.by_id;
        let mut copied = Records::new(alloc).up_to(self.update_seq());
        for (id, stored) in self.iter() {
            copied = copied.put(alloc, id, stored.get().stripped(alloc)?)?;
        }
        Ok(copied)
    }

    /// Without the document, if it is there. What no other value holds is changed in its place.
    pub fn remove(self, id: &DocId) -> Result<Records, AllocError>
        ensures { IfOk result (λ d. d ≡ record self { docs = without self.docs id.now }) }
    {
        let replaced = found(&self.by_id, id).map(Replaced::of);
        let live = self.live - live_count(replaced);
        Ok(Records {
            by_number: without_old(self.by_number, replaced)?,
            by_id: self.by_id.into_without(id)?,
            live,
            update_seq: self.update_seq,
        })
    }
}

fn with_record(
    by_id: CowMap<DocId, Shared<Record>>,
    id: &DocId,
    stored: Shared<Record>,
) -> Result<CowMap<DocId, Shared<Record>>, AllocError>
    ensures { IfOk result (λ m. m.entries ≡ put_entry (slice_cmp nat_cmp) id.now stored by_id.entries) }
{
    by_id.into_with(id.share()?, stored)
}

/// 1 for a live document, and else 0.
fn live_count(replaced: Option<Replaced>) -> u64
    ensures { result ≡ live_of replaced }
{
    match replaced {
        Some(replaced) => u64::from(replaced.is_live),
        None => 0,
    }
}

/// The index with the record at `seq`, and nothing at the number of the one before.
fn renumbered(
    numbers: Numbers,
    replaced: Option<Replaced>,
    id: &DocId,
    seq: u64,
    stored: &Shared<Record>,
) -> Result<Numbers, AllocError>
    ensures { IfOk result (λ m. m.entries ≡ put_entry nat_cmp seq (id.now, stored.now)
        (without_replaced replaced numbers.entries)) }
{
    let numbered = (id.share()?, stored.share()?);
    without_old(numbers, replaced)?.into_with(seq, numbered)
}

fn without_old(numbers: Numbers, replaced: Option<Replaced>) -> Result<Numbers, AllocError>
    ensures { IfOk result (λ m. m.entries ≡ without_replaced replaced numbers.entries) }
{
    match replaced {
        Some(replaced) => numbers.into_without(&replaced.seq),
        None => Ok(numbers),
    }
}
