//! Merges of documents' paths that other databases sent.
ghost use Rattle.std.specs.Prelude.{◌≡◌, ◌<◌, ◌+◌, length, IfOk, Ok, true, option_copied};
ghost use Rattle.model.specs.Map.{get};
ghost use Rattle.model.specs.Edit.{revision_written};
ghost use Rattle.model.specs.Database.{merge_in, after_merge, merge_replies, after_merges};

use crate::database::Database;
use crate::database::ahead::AHEAD;
use crate::database::stored::Change;
use crate::record::Record;
use crate::written::merged;
use commands::{Merge, ShortList};
use model::Refusal;
use revision_id::RevId;
use std::alloc::AllocError;
use tree_merge::is_written;

impl Database {
    /// One after another, in the order listed.
    pub(super) fn merges(
        &mut self,
        merges: &[Merge],
    ) -> Result<ShortList<Result<RevId, Refusal>>, AllocError>
        requires room { self.old.update_seq + length merges.now < u64.MAX }
        ensures replies { IfOk result (λ rs. rs ≡ merge_replies self.old merges.now) }
        ensures after { IfOk result (λ _. self.new ≡ after_merges self.old merges.now) }
    {
        if let [merge] = merges {
            return Ok(ShortList::one(self.merge(merge)?));
        }
        let mut replies = Vec::with_capacity(self.alloc, merges.len())?;
        for (index, merge) in merges.iter().enumerate() {
            if index % AHEAD == 0 {
                self.read_merges_ahead(&merges[index..]);
            }
            replies.push(self.merge(merge)?)?;
        }
        Ok(ShortList::from_vec(replies))
    }

    fn merge(&mut self, merge: &Merge) -> Result<Result<RevId, Refusal>, AllocError>
        requires room { self.old.update_seq + 1 < u64.MAX }
        ensures reply { IfOk result (λ r. r ≡ revision_written (merge_in self.old merge.now)) }
        ensures after { IfOk result (λ _. self.new ≡ after_merge self.old merge.now) }
    {
        let newest = merge.path()[0];
        let held = self.documents.get(merge.id());
        if self.has_merged(held, merge) {
            return Ok(Ok(newest));
        }
        let written = merged(self.alloc, self.revs_limit(), held.map(Record::tree), merge)?;
        let change = Change::of(held, written);
        self.store(merge.id(), change)
    }

    /// Whether a merge finds all that it brings: then it changes nothing.
    fn has_merged(&self, held: Option<&Record>, merge: &Merge) -> bool
        requires { option_copied held ≡ get self.now.docs merge.now.id }
        ensures reply { result ≡ true → revision_written (merge_in self.now merge.now) ≡ Ok merge.now.newest }
        ensures after { result ≡ true → after_merge self.now merge.now ≡ self.now }
    {
        let Some(held) = held else {
            return false;
        };
        is_written(held.tree(), self.revs_limit(), merge.path())
    }
}
