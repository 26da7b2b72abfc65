//! Edits of documents.
ghost use Rattle.std.specs.Prelude.{◌≡◌, ◌<◌, ◌+◌, length, IfOk};
ghost use Rattle.model.specs.Edit.{revision_written};
ghost use Rattle.model.specs.Database.{edit_in, after_edit, edit_replies, after_edits};

use crate::database::Database;
use crate::database::ahead::AHEAD;
use crate::database::stored::Change;
use crate::record::Record;
use crate::written::edited;
use commands::{Edit, ShortList};
use model::Refusal;
use revision_id::RevId;
use std::alloc::AllocError;

impl Database {
    /// One after another, in the order listed.
    pub(super) fn edits(
        &mut self,
        edits: &[Edit],
    ) -> Result<ShortList<Result<RevId, Refusal>>, AllocError>
        requires room { self.old.update_seq + length edits.now < u64.MAX }
        ensures replies { IfOk result (λ rs. rs ≡ edit_replies self.old edits.now) }
        ensures after { IfOk result (λ _. self.new ≡ after_edits self.old edits.now) }
    {
        if let [edit] = edits {
            return Ok(ShortList::one(self.edit(edit)?));
        }
        let mut replies = Vec::with_capacity(self.alloc, edits.len())?;
        for (index, edit) in edits.iter().enumerate() {
            if index % AHEAD == 0 {
                self.read_edits_ahead(&edits[index..]);
            }
            replies.push(self.edit(edit)?)?;
        }
        Ok(ShortList::from_vec(replies))
    }

    fn edit(&mut self, edit: &Edit) -> Result<Result<RevId, Refusal>, AllocError>
        requires room { self.old.update_seq + 1 < u64.MAX }
        ensures reply { IfOk result (λ r. r ≡ revision_written (edit_in self.old edit.now)) }
        ensures after { IfOk result (λ _. self.new ≡ after_edit self.old edit.now) }
    {
        let held = self.documents.get(&edit.id);
        let written = edited(self.alloc, self.revs_limit(), held.map(Record::tree), edit)?;
        let change = Change::of(held, written);
        self.store(&edit.id, change)
    }
}
