//! Documents from a list of them.
ghost use Rattle.std.specs.Prelude.{◌≡◌, ◌≢◌, ◌↔◌, ◌<◌, ◌≤◌, T, All, IfOk, IfSome, IsTrue, None, Some};
ghost use Rattle.std.specs.FinMap.Entries.{is_sorted};
ghost use Rattle.model.specs.Command.{Id, names};
ghost use Rattle.model.specs.Database.{IsRecord, IsNumbered, Record as Stored};
ghost use Rattle.model.specs.Map.{Map, entries, get};
ghost use Rattle.snapshots.specs.Listing.{Listing, database_of};
ghost use Rattle.snapshots.specs.Parts.{AreDocuments};

use crate::record::Record;
use crate::records::Records;
use document_id::{DocId, ids_rise};
use std::alloc::{AllocError, Global};

impl Records {
    /// The documents of a list, in which each id is below the next one's, and the update numbers are from 1 to the last
    /// that was given, no two alike; of another list nothing.
    pub fn from_list(
        alloc: Global,
        documents: Vec<(DocId, Record)>,
        update_seq: u64,
    ) -> Result<Option<Records>, AllocError>
        ensures listed { (l : Listing) → IfOk result (λ made. (made ≡ Some l)
            ↔ ((l.update_seq ≡ update_seq) × AreDocuments documents.items l)) }
    {
        if !ids_rise(&documents) {
            return Ok(None);
        }
        recall_all(&documents);
        let Some(records) = numbered(alloc, documents, update_seq)? else {
            return Ok(None);
        };
        records.recall_numbers();
        Ok(Some(records))
    }

    /// Whether the number was given, and no document has it.
    #[tactic(auto, unfolding(model::specs::Changes::by_seq))]
    fn is_free(&self, seq: u64) -> bool
        ensures { IsTrue result ↔ ((0 < seq) × (seq ≤ self.now.update_seq)
            × ((id : Id) (r : Stored) → get self.now.docs id ≡ Some r → r.seq ≢ seq)) }
    {
        let last = self.update_seq;
        if seq == 0 {
            return false;
        }
        if seq > last {
            return false;
        }
        self.by_number.get(&seq).is_none()
    }

    /// Recalls what the update numbers keep: for the contract alone.
    fn recall_numbers(&self)
        ensures { IsNumbered (database_of self.now) }
    {
        let _recalled = &self.by_number;
    }
}

/// The documents of a list whose ids rise; nothing where a number was not given, or two are alike.
fn numbered(
    alloc: Global,
    documents: Vec<(DocId, Record)>,
    update_seq: u64,
) -> Result<Option<Records>, AllocError>
    requires { T (is_sorted names.cmp documents.items) }
    ensures made { IfOk result (λ made. IfSome made (λ r. (entries r.docs ≡ documents.items) × (r.update_seq ≡ update_seq))) }
    ensures none { (docs : Map names Stored) → entries docs ≡ documents.items
        → IsNumbered (database_of (record { docs = docs; update_seq = update_seq })) → IfOk result (λ made. made ≢ None) }
{
    let mut records = Records::new(alloc).up_to(update_seq);
    for (id, stored) in documents {
        if !records.is_free(stored.seq()) {
            return Ok(None);
        }
        records = records.put(alloc, &id, stored)?;
    }
    Ok(Some(records))
}

/// Recalls what the types of the ids and the records keep: for the contract alone, since a list says nothing of it.
fn recall_all(documents: &[(DocId, Record)])
    ensures { All (λ d. IsRecord d.0 d.1) documents.now }
{
    for (id, stored) in documents {
        recall_one(id, stored);
    }
}

fn recall_one(id: &DocId, stored: &Record)
    ensures { IsRecord id.now stored.now }
{
    let _recalled = id.as_str();
    let _recalled = stored.tree().nodes();
}
