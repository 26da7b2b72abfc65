//! What is read of a database: its parts are lent, each to be asked itself.
ghost use Rattle.std.specs.Prelude.{◌≡◌, ◌<◌, ◌^◌, ℕ, length, Some, IfOk};
ghost use Rattle.std.specs.Map.Iter.{ShowsInOrder, deref_pair};
ghost use Rattle.model.specs.Changes.{every_id, changed_since as changed_above, wanted_by};
ghost use Rattle.model.specs.Answers.{counts};
ghost use Rattle.model.specs.Command.{Id};
ghost use Rattle.model.specs.Database.{Record as Stored, calls_of};

use crate::database::Database;
use crate::record::Record;
use crate::records::Records;
use cow_index::{CowMap, Range, Shared};
use document_id::{DocId, DocIds};
use local_docs::Locals;
use purge::PurgeLog;
use queries::Counts;
use std::alloc::{AllocError, Global};

impl Database {
    /// The documents, and the last update number that was given, from 0.
    pub fn documents(&self) -> &Records
        ensures { result.now ≡ record { docs = self.now.docs; update_seq = self.now.update_seq } }
    {
        &self.documents
    }

    /// The local documents.
    pub fn locals(&self) -> &Locals
        ensures { result.now ≡ self.now.locals }
    {
        &self.locals
    }

    /// The log of purges, and the last purge number that was given, from 0.
    pub fn purges(&self) -> &PurgeLog
        ensures log { result.now ≡ self.now.purges }
        ensures room { result.now.purge_seq < u64.MAX }
    {
        &self.purges
    }

    /// How many revisions are kept above a leaf, itself among them, from 1.
    pub fn revs_limit(&self) -> u32
        ensures limit { result ≡ self.now.revs_limit }
        ensures not_zero { 0 < result }
    {
        self.revs_limit
    }

    /// How many commands the session has made.
    pub fn calls_of(&self, session: u16) -> u64
        ensures { result ≡ calls_of self.now session }
    {
        self.calls.of(session)
    }

    /// The documents with an update number above `since`, in the order of these numbers.
    #[tactic(auto, unfolding(model::specs::Changes::by_seq))]
    pub fn changed_since(&self, since: u64) -> Range<'_, u64, (DocId, Shared<Record>)>
        ensures rest { result ≡ changed_above every_id self.now since }
        ensures fits { length result < 2 ^ 64 }
        ensures runs { ShowsInOrder (deref_pair {K = ℕ} {X = Id × Stored}) }
    {
        self.documents.changed_since(since)
    }

    /// How many documents have an update number above `since`, counted on one way down the index.
    #[tactic(auto, unfolding(model::specs::Changes::by_seq))]
    pub fn count_changed_since(&self, since: u64) -> u64
        ensures { result ≡ length (changed_above every_id self.now since) }
    {
        self.documents.count_changed_since(since)
    }

    /// Those of some documents that have an update number above `since`, by these numbers. It costs a look at each of
    /// the documents, or at each that changed, whichever are fewer, and as many ways down the index that it makes.
    #[tactic(auto, unfolding(model::specs::Changes::by_seq))]
    pub fn changed_among(
        &self,
        alloc: Global,
        since: u64,
        ids: &DocIds,
    ) -> Result<CowMap<u64, (DocId, Shared<Record>)>, AllocError>
        ensures changed { IfOk result (λ m. m.entries ≡ changed_above (wanted_by (Some ids.now)) self.now since) }
    {
        self.documents.changed_among(alloc, since, ids)
    }

    /// How many of some documents have an update number above `since`, counted at the cost of a look at each of these, or
    /// at each that changed, whichever are fewer.
    #[tactic(auto, unfolding(model::specs::Changes::by_seq))]
    pub fn count_changed_among(&self, since: u64, ids: &DocIds) -> u64
        ensures { result ≡ length (changed_above (wanted_by (Some ids.now)) self.now since) }
    {
        self.documents.count_changed_among(since, ids)
    }

    /// How many documents there are, live and deleted, and the last numbers that were given.
    pub fn counts(&self) -> Counts
        ensures { result ≡ counts self.now }
    {
        Counts {
            doc_count: self.documents.live(),
            doc_del_count: self.documents.deleted(),
            update_seq: self.documents.update_seq(),
            purge_seq: self.purges.purge_seq(),
        }
    }
}
