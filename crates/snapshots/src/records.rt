//! The documents by their ids and by their update numbers, and how many of them are live.
ghost use Rattle.std.specs.Prelude.{◌≡◌, ◌<◌, ◌^◌, ℕ, length, IfOk, option_copied};
ghost use Rattle.std.specs.Ordering.{nat_cmp};
ghost use Rattle.std.specs.Cmp.Lexicographic.{slice_cmp};
ghost use Rattle.std.specs.FinMap.Entries.{find};
ghost use Rattle.std.specs.Map.Iter.{ShowsInOrder, deref_pair};
ghost use Rattle.cow_index.specs.Entries.{entries_from};
ghost use Rattle.model.specs.Map.{entries, get, empty};
ghost use Rattle.model.specs.Command.{Id, names};
ghost use Rattle.model.specs.Database.{Record as Stored};
ghost use Rattle.model.specs.Changes.{every_id, changed_since as changed_above};
ghost use Rattle.model.specs.Answers.{counts};
ghost use Rattle.snapshots.specs.Listing.{database_of};

mod ahead;
mod among;
mod listed;
mod replaced;
mod writes;

use crate::record::Record;
use cow_index::{CowMap, Range, Shared};
use document_id::DocId;
pub(crate) use replaced::Replaced;
use std::alloc::{AllocError, Global};
use std::marker::Model;

type Numbers = CowMap<u64, (DocId, Shared<Record>)>;

/// Documents, each once in both orders, and a number that none of theirs is above. Both orders
/// share the records.
///
/// No call changes a value: one that puts or takes a document gives a new one, which shares with
/// the older one all but the nodes on the way to it.
#[derive(Drop)]
pub struct Records {
    by_id: CowMap<DocId, Shared<Record>>,
    by_number: Numbers,
    live: u64,
    update_seq: u64,
}

impl Model for Records {
    ghost use Rattle.snapshots.specs.Listing.{Listing, coded_listing, listing_of, IsIndexed};

    ghost Value = { Listing };

    ghost coded = { coded_listing };

    ghost view = { λ d. listing_of d.by_id.entries d.update_seq };

    ghost invariant = { λ d. IsIndexed d.by_id.entries d.by_number.entries d.live d.update_seq };
}

impl Records {
    /// No documents.
    pub fn new(alloc: Global) -> Records
        ensures { result ≡ record { docs = empty; update_seq = 0 } }
    {
        Records {
            by_id: CowMap::new(alloc),
            by_number: CowMap::new(alloc),
            live: 0,
            update_seq: 0,
        }
    }

    /// The same documents. It takes no memory.
    pub fn share(&self) -> Result<Records, AllocError>
        ensures same { IfOk result (λ d. d ≡ self.now) }
    {
        Ok(Records {
            by_id: self.by_id.share()?,
            by_number: self.by_number.share()?,
            live: self.live,
            update_seq: self.update_seq,
        })
    }

    /// The document of the id, found in logarithmic time.
    pub fn get(&self, id: &DocId) -> Option<&Record>
        ensures { option_copied result ≡ get self.now.docs id.now }
    {
        found(&self.by_id, id)
    }

    /// How many documents there are.
    pub fn len(&self) -> u64
        ensures { result ≡ length (entries self.now.docs) }
    {
        self.by_id.len()
    }

    /// The last update number that was given, from 0.
    pub fn update_seq(&self) -> u64
        ensures { result ≡ self.now.update_seq }
    {
        self.update_seq
    }

    /// The documents, in the order of their ids.
    pub fn iter(&self) -> Range<'_, DocId, Shared<Record>>
        ensures rest { result ≡ entries self.now.docs }
        ensures fits { length result < 2 ^ 64 }
        ensures runs { ShowsInOrder (deref_pair {K = Id} {X = Stored}) }
    {
        self.by_id.iter()
    }

    /// The documents whose ids are not below `id`, in the order of their ids.
    pub fn range_from(&self, id: &DocId) -> Range<'_, DocId, Shared<Record>>
        ensures rest { result ≡ entries_from names.cmp id.now (entries self.now.docs) }
        ensures fits { length result < 2 ^ 64 }
        ensures runs { ShowsInOrder (deref_pair {K = Id} {X = Stored}) }
    {
        self.by_id.range_from(id)
    }

    /// The documents with a number above `since`, in the order of their numbers.
    pub(crate) fn changed_since(&self, since: u64) -> Range<'_, u64, (DocId, Shared<Record>)>
        requires { self.now.update_seq < u64.MAX }
        ensures rest { result ≡ changed_above every_id (database_of self.now) since }
        ensures fits { length result < 2 ^ 64 }
        ensures runs { ShowsInOrder (deref_pair {K = ℕ} {X = Id × Stored}) }
    {
        self.by_number.range_from(&(since.min(self.update_seq) + 1))
    }

    /// How many documents have a number above `since`, counted on one way down the index.
    pub(crate) fn count_changed_since(&self, since: u64) -> u64
        requires { self.now.update_seq < u64.MAX }
        ensures { result ≡ length (changed_above every_id (database_of self.now) since) }
    {
        self.by_number.count_from(&(since.min(self.update_seq) + 1))
    }

    /// How many documents have a winner that is not deleted.
    pub(crate) fn live(&self) -> u64
        ensures { result ≡ (counts (database_of self.now)).doc_count }
    {
        self.live
    }

    /// How many documents have a deleted winner.
    pub(crate) fn deleted(&self) -> u64
        ensures { result ≡ (counts (database_of self.now)).doc_del_count }
    {
        self.by_id.len() - self.live
    }
}

fn found<'a>(by_id: &'a CowMap<DocId, Shared<Record>>, id: &DocId) -> Option<&'a Record>
    ensures { option_copied result ≡ find (slice_cmp nat_cmp) id.now by_id.now.entries }
{
    by_id.get(id).map(Shared::get)
}
