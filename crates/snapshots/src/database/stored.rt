//! What a write changes of its document, and what stores that.
ghost use Rattle.std.specs.Prelude.{◌≡◌, ◌<◌, ◌+◌, IfOk, false, option_map, option_copied, unwrap_or};
ghost use Rattle.model.specs.Map.{get};
ghost use Rattle.model.specs.Command.{Id};
ghost use Rattle.model.specs.Edit.{revision_written};
ghost use Rattle.model.specs.Database as model;
ghost use Rattle.model.specs.Database.{same_tree, store_written};
ghost use Rattle.snapshots.specs.Change.{IsOver, after_change, outcome_of};
ghost use Rattle.snapshots.specs.Replaced.{replaced, replaced_at};

use crate::database::Database;
use crate::record::Record;
use crate::records::{Records, Replaced};
use crate::written::Written;
use document_id::DocId;
use model::Refusal;
use revision_id::RevId;
use revision_tree::RevTree;
use std::alloc::AllocError;
use std::mem;
use tree_merge::{has_alone, is_same};

/// What a write changes of its document.
#[derive(Drop)]
pub(super) enum Change {
    /// Nothing: the write is refused, or the document has the tree already. This is its outcome.
    Nothing(Result<RevId, Refusal>),
    /// The tree that was written takes the place of the record, if the document had one.
    NewTree(Written, Option<Replaced>),
}

impl Change {
    /// Of the document that has this record.
    #[tactic(auto, unfolding(model::specs::Database::store))]
    pub(super) fn of(held: Option<&Record>, written: Result<Written, Refusal>) -> Change
        ensures outcome { outcome_of result ≡ revision_written written }
        ensures over { IsOver (option_map replaced (option_copied held.entry)) result }
        ensures after { (d : model.Database) (id : Id) → get d.docs id ≡ option_copied held.entry
            → after_change d id result ≡ store_written d id written }
    {
        match written {
            Ok(written) => {
                if holds(held, &written.tree, written.rev) {
                    return Change::Nothing(Ok(written.rev));
                }
                Change::NewTree(written, held.map(Replaced::of))
            }
            Err(refusal) => Change::Nothing(Err(refusal)),
        }
    }
}

impl Database {
    /// Makes the change of the document, and answers the outcome of its write. Where memory is refused, no documents are
    /// left.
    pub(super) fn store(
        &mut self,
        id: &DocId,
        change: Change,
    ) -> Result<Result<RevId, Refusal>, AllocError>
        requires room { self.old.update_seq + 1 < u64.MAX }
        requires over { IsOver (replaced_at self.old.docs id.now) change }
        ensures outcome { IfOk result (λ r. r ≡ outcome_of change) }
        ensures after { IfOk result (λ _. self.new ≡ after_change self.old id.now change) }
    {
        match change {
            Change::Nothing(outcome) => Ok(outcome),
            Change::NewTree(Written { rev, tree }, replaced) => {
                self.update(id, tree, replaced)?;
                Ok(Ok(rev))
            }
        }
    }

    /// Gives the document this tree, at the next update number. What is known of the record that it had was looked up
    /// before. Where memory is refused, no documents are left.
    pub(super) fn update(
        &mut self,
        id: &DocId,
        tree: RevTree,
        replaced: Option<Replaced>,
    ) -> Result<(), AllocError>
        requires room { self.old.update_seq + 1 < u64.MAX }
        requires replaced { replaced ≡ replaced_at self.old.docs id.now }
        ensures updated { IfOk result (λ _. self.new ≡ model.with_tree self.old id.now tree) }
    {
        let documents = mem::replace(&mut self.documents, Records::new(self.alloc));
        self.documents = documents.update(self.alloc, id, tree, replaced)?;
        Ok(())
    }
}

/// Whether a document with this record has the tree already, into which the revision was written.
fn holds(held: Option<&Record>, tree: &RevTree, rev: RevId) -> bool
    ensures { result ≡ unwrap_or (option_map (λ r. same_tree tree.now r.tree) (option_copied held.entry)) false }
{
    match held {
        Some(held) => !has_alone(tree, held.tree(), rev) && is_same(tree, held.tree()),
        None => false,
    }
}
