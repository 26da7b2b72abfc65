//! What is noted of a tree beside its revisions.
ghost use Rattle.std.specs.Prelude.{◌≡◌, true, IfOk};
ghost use Rattle.model.specs.Tree.{Tree};
ghost use Rattle.revision_tree.specs.Nodes.{tree_of};
ghost use Rattle.revision_tree.specs.Notes.{AreNotes, HasOneLeaf};
ghost use Rattle.revision_tree.specs.Rows.{nodes_of, IsRows};

use crate::noted::{Noted, noted_of};
use crate::rows::Rows;
use std::alloc::{AllocError, Global};

/// What is known of a tree's leaves, and of how far the other revisions are above them.
#[derive(Drop)]
pub(crate) enum Notes {
    /// There is no leaf but the newest revision.
    OneLeaf,
    /// Nothing: the revisions are so few that they are looked through.
    Few,
    /// The runs, and the leaves.
    Many(Box<Noted>),
}

impl Notes {
    /// The same, which share the runs and the leaves.
    pub(crate) fn share(&self, alloc: Global) -> Result<Notes, AllocError>
        ensures { (t : Tree) → AreNotes t self.now → IfOk result (λ n. AreNotes t n) }
    {
        match self {
            Notes::OneLeaf => Ok(Notes::OneLeaf),
            Notes::Few => Ok(Notes::Few),
            Notes::Many(noted) => Ok(Notes::Many(Box::new(alloc, noted.share()?)?)),
        }
    }
}

/// What is noted of a tree that has one leaf, or may have more.
pub(crate) fn notes_of(alloc: Global, rows: &Rows, one_leaf: bool) -> Result<Notes, AllocError>
    requires rows { IsRows rows.now }
    requires one { one_leaf ≡ true → HasOneLeaf (tree_of (nodes_of rows.now)) }
    ensures { IfOk result (λ n. AreNotes (tree_of (nodes_of rows.now)) n) }
{
    if one_leaf {
        return Ok(Notes::OneLeaf);
    }
    if rows.older.is_empty() {
        return Ok(Notes::Few);
    }
    let noted = noted_of(alloc, rows)?;
    Ok(Notes::Many(Box::new(alloc, noted)?))
}
