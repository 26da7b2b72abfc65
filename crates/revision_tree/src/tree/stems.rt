//! Stems of a tree.
ghost use Rattle.std.specs.Prelude.{◌≡◌, ◌<◌, true, IfOk};
ghost use Rattle.model.specs.TreeChange.{stem as stemming};
ghost use Rattle.revision_tree.specs.Nodes.{tree_of};
ghost use Rattle.revision_tree.specs.Notes.{HasOneLeaf};
ghost use Rattle.revision_tree.specs.Rows.{nodes_of, IsRows};

use crate::noted::{due_top, noted_of};
use crate::noted_tree::NotedTree;
use crate::notes::Notes;
use crate::rows::Rows;
use crate::shorten::above;
use crate::tree::RevTree;
use crate::whole::{first, last};
use std::alloc::{AllocError, Global};

impl RevTree {
    /// The revisions that are fewer than `limit` steps above some leaf. Where the tree has many, the others aren't looked at.
    pub fn stemmed(self, alloc: Global, limit: u32) -> Result<RevTree, AllocError>
        requires { 0 < limit }
        ensures { IfOk result (λ t. t ≡ stemming limit self) }
    {
        let RevTree { rows, notes } = self;
        match notes {
            Notes::OneLeaf => shortened(alloc, rows, limit),
            Notes::Few => {
                let noted = noted_of(alloc, &rows)?;
                let stem = NotedTree { rows, noted }.stemmed(alloc, limit)?;
                from_noted(alloc, stem)
            }
            Notes::Many(noted) => {
                let noted = Box::into_inner(noted);
                let stem = NotedTree { rows, noted }.stemmed(alloc, limit)?;
                from_noted(alloc, stem)
            }
        }
    }

    /// Whether a stem keeps all, as far as that is seen at once: from its oldest and its newest revision, and from what is noted.
    pub fn is_stem(&self, limit: u32) -> bool
        ensures { result ≡ true → stemming limit self.now ≡ self.now }
    {
        if limit == 0 {
            return false;
        }
        let oldest = first(&self.rows);
        let newest = last(&self.rows);
        if newest.generation().saturating_sub(oldest.generation()) < limit {
            return true;
        }
        let Notes::Many(noted) = &self.notes else {
            return false;
        };
        due_top(&noted.runs, limit).is_none()
    }
}

/// The stem of a tree of one leaf. Shares what is apart from the oldest.
fn shortened(alloc: Global, rows: Rows, limit: u32) -> Result<RevTree, AllocError>
    requires limit { 0 < limit }
    requires rows { IsRows rows }
    requires one { HasOneLeaf (tree_of (nodes_of rows)) }
    ensures { IfOk result (λ t. t ≡ stemming limit (tree_of (nodes_of rows))) }
{
    let newest = last(&rows);
    let oldest = newest.generation().saturating_sub(limit);
    let left = above(alloc, rows, oldest)?;
    Ok(RevTree {
        rows: left,
        notes: Notes::OneLeaf,
    })
}

/// A tree of few revisions keeps no runs and no leaves.
fn from_noted(alloc: Global, tree: NotedTree) -> Result<RevTree, AllocError>
    ensures { IfOk result (λ t. t ≡ tree) }
{
    let NotedTree { rows, noted } = tree;
    if rows.older.is_empty() {
        return Ok(RevTree {
            rows,
            notes: Notes::Few,
        });
    }
    let noted = Box::new(alloc, noted)?;
    Ok(RevTree {
        rows,
        notes: Notes::Many(noted),
    })
}
