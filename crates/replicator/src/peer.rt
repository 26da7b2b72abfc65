//! One end of a replication.
ghost use Rattle.std.specs.Prelude.{◌≡◌, ℕ, None, Some};
ghost use Rattle.replicator.specs.Call as call;
ghost use Rattle.replicator.specs.Call.{Call, CountsFailed, OnlyReads};

use crate::checkpoint::Checkpoint;
use crate::fault::PeerFault;
use commands::{Merge, NamedRevisions};
use document_id::{DocId, DocIds};
use queries::{ChangesPage, Differences};
use revision_id::RevId;
use std::alloc::Global;
use std::marker::Model;

/// Revisions of one document that were asked for, each as a document with its path, or its name
/// where it is missing.
#[derive(Drop)]
pub struct Opened {
    pub revisions: Vec<Result<Merge, RevId>>,
}

impl Model for Opened {
    ghost use Rattle.std.specs.Prelude.{List, Result};
    ghost use Rattle.std.specs.Coded.{codes};
    ghost use Rattle.model.specs.JsonCode.{coded_members};
    ghost use Rattle.model.specs.Command.{Merge};
    ghost use Rattle.model.specs.Revision.{Rev};

    ghost Value = { List (Result Merge Rev) };

    ghost coded = { Prim.hlevel (codes, coded_members) };

    ghost view = { λ o. o.revisions.items };
}

/// A database, as one end of a replication.
///
/// Whatever its answers are, contracts say what a worker does with them.
///
/// # Errors
///
/// Each call answers [`PeerFault::Failed`] where it failed, by which the count of failures rises;
/// [`PeerFault::Unreadable`] where its answer can't be read, after which what was asked may have been
/// done all the same; and [`PeerFault::Memory`] where memory was refused, before the call or after it.
/// A call that only reads is never [`PeerFault::Refused`].
pub trait Peer {
    /// It goes from one state to another by this call with its answer.
    ghost goes: { Self → Call → Self → Type 0 };

    /// How many of its calls have failed.
    ghost failed_calls: { Self → ℕ };

    /// The changes after a number, with all leaves of each document, at most `limit` rows.
    fn changes(&mut self, alloc: Global, since: u64, limit: u64) -> Result<ChangesPage, PeerFault>
        ensures goes { goes self.old (call.Changes None since limit result) self.new }
        ensures failures { CountsFailed (failed_calls self.old) (failed_calls self.new) result }
        ensures reads { OnlyReads result };

    /// The changes of these documents after a number, with all leaves of each, at most `limit` rows.
    fn changes_of(
        &mut self,
        alloc: Global,
        ids: &DocIds,
        since: u64,
        limit: u64,
    ) -> Result<ChangesPage, PeerFault>
        ensures goes { goes self.old (call.Changes (Some ids.now) since limit result) self.new }
        ensures failures { CountsFailed (failed_calls self.old) (failed_calls self.new) result }
        ensures reads { OnlyReads result };

    /// Which of these revisions are not known.
    fn diff(&mut self, alloc: Global, asked: &NamedRevisions) -> Result<Differences, PeerFault>
        ensures goes { goes self.old (call.Diff asked.now result) self.new }
        ensures failures { CountsFailed (failed_calls self.old) (failed_calls self.new) result }
        ensures reads { OnlyReads result };

    /// Says which revisions are asked for next by [`Peer::open_revs`], in this order: those of one document
    /// at a time, as [`next_revs`](crate::next_revs) takes them. An end may ask for them ahead, and one
    /// that needn't ignores it. Each call goes as it would go if nothing had been said.
    fn expect(&mut self, alloc: Global, wanted: &[(DocId, RevId)])
        ensures goes { (call : Call) (after : Self) → goes self.new call after → goes self.old call after }
        ensures failures { failed_calls self.new ≡ failed_calls self.old }
    {}

    /// These revisions of a document, or newer ones in their place; one that is missing by its name.
    fn open_revs(&mut self, alloc: Global, id: &DocId, revs: &[RevId]) -> Result<Opened, PeerFault>
        ensures goes { goes self.old (call.OpenRevs id.now revs.now result) self.new }
        ensures failures { CountsFailed (failed_calls self.old) (failed_calls self.new) result }
        ensures reads { OnlyReads result };

    /// Grafts documents with their paths. [`PeerFault::Refused`] where one of them is refused.
    fn bulk(&mut self, alloc: Global, documents: &[Merge]) -> Result<(), PeerFault>
        ensures goes { goes self.old (call.Bulk documents.now result) self.new }
        ensures failures { CountsFailed (failed_calls self.old) (failed_calls self.new) result };

    /// The checkpoint of this id, if there is one.
    fn local_get(&mut self, alloc: Global, id: &DocId) -> Result<Option<Checkpoint>, PeerFault>
        ensures goes { goes self.old (call.LocalGet id.now result) self.new }
        ensures failures { CountsFailed (failed_calls self.old) (failed_calls self.new) result }
        ensures reads { OnlyReads result };

    /// Writes a checkpoint over the revision that is named, and answers the number of its revision.
    /// [`PeerFault::Refused`] where there is another revision.
    fn local_put(
        &mut self,
        alloc: Global,
        id: &DocId,
        named: Option<u32>,
        last_seq: u64,
    ) -> Result<u32, PeerFault>
        ensures goes { goes self.old (call.LocalPut id.now named last_seq result) self.new }
        ensures failures { CountsFailed (failed_calls self.old) (failed_calls self.new) result };

    /// How many calls answered [`PeerFault::Failed`], or 2^64 - 1 where more have.
    fn failures(&self) -> u64
        ensures { result ≡ failed_calls self.now };
}
