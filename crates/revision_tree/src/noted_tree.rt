//! A tree with its runs and its leaves, from which revisions go.
ghost use Rattle.std.specs.Prelude.{◌≡◌, ◌<◌, ℕ, true, Some, None, IfOk, IfSome};
ghost use Rattle.model.specs.Revision.{Rev};
ghost use Rattle.model.specs.Tree.{Tree, parent_of as known_parent};
ghost use Rattle.model.specs.TreeChange.{restrict, stem as stemming};
ghost use Rattle.revision_runs.specs.Changes.{orphaned};
ghost use Rattle.revision_runs.specs.TreeRuns.{IsOneChild, IsOnlyChild, IsWay};
ghost use Rattle.revision_tree.specs.Nodes.{tree_of};
ghost use Rattle.revision_tree.specs.Rows.{nodes_of, IsRows};
ghost use Rattle.revision_tree.specs.Stems.{IsDue, weight};
ghost use Rattle.revision_tree.specs.Trimmed.{is_other};

use crate::links::{child_below, run_at};
use crate::noted::{Noted, due_top};
use crate::orphan::without_parent;
use crate::rows::Rows;
use crate::search::child_of;
use crate::trim::without;
use revision_id::RevId;
use revision_runs::{dropped, unlinked};
use std::alloc::{AllocError, Global};
use std::marker::Model;

/// A tree with its runs and its leaves.
#[derive(Drop)]
pub(crate) struct NotedTree {
    pub(crate) rows: Rows,
    pub(crate) noted: Noted,
}

impl Model for NotedTree {
    ghost use Rattle.model.specs.Tree.{Tree, coded_tree};

    ghost Value = { Tree };

    ghost coded = { coded_tree };

    ghost use Rattle.revision_tree.specs.Nodes.{tree_of};
    ghost use Rattle.revision_tree.specs.Rows.{nodes_of};
    ghost use Rattle.revision_tree.specs.Notes.{IsNotedTree};

    ghost view = { λ t. tree_of (nodes_of t.rows) };

    ghost invariant = { λ t. IsNotedTree t.rows t.noted };
}

impl NotedTree {
    /// The revisions fewer than `limit` steps above some leaf: while a top isn't, it goes, link by link.
    pub(crate) fn stemmed(self, alloc: Global, limit: u32) -> Result<NotedTree, AllocError>
        requires { 0 < limit }
        ensures { IfOk result (λ t. t ≡ stemming limit self) }
    {
        let mut tree = self;
        while let Some(top) = tree.due(limit) {
            tree = tree.lessened(alloc, top, limit)?;
        }
        Ok(tree)
    }

    /// A top that is too far above the leaves.
    fn due(&self, limit: u32) -> Option<RevId>
        requires { 0 < limit }
        ensures due { IfSome result (λ top. IsDue limit self.now top) }
        ensures none { result ≡ None → stemming limit self.now ≡ self.now }
    {
        due_top(&self.noted.runs, limit)
    }

    /// Takes a link of a top that is too far above the leaves, or itself where it has one link.
    fn lessened(self, alloc: Global, top: RevId, limit: u32) -> Result<NotedTree, AllocError>
        requires limit { 0 < limit }
        requires due { IsDue limit self top }
        ensures stem { IfOk result (λ t. stemming limit t ≡ stemming limit self) }
        ensures less { IfOk result (λ t. weight t < weight self) }
    {
        let run = run_at(&self.noted.runs, top);
        if let Some(fork) = run.fork {
            return self.unlinked(alloc, top, fork);
        }
        if let Some(child) = self.noted.runs.nearest_under(top) {
            return self.unlinked(alloc, child, top);
        }
        self.dropped(alloc, top, run.bottom)
    }

    /// With no parent for a child of a fork.
    fn unlinked(self, alloc: Global, child: RevId, fork: RevId) -> Result<NotedTree, AllocError>
        requires { IsOneChild self fork child }
        ensures { IfOk result (λ t. t ≡ orphaned child self) }
    {
        let NotedTree { rows, noted } = self;
        let Noted { runs, leaves } = noted;
        let freed = unlinked(runs, child, fork)?;
        let left = without_parent(alloc, rows, child)?;
        Ok(NotedTree {
            rows: left,
            noted: Noted {
                runs: freed,
                leaves,
            },
        })
    }

    /// Without a root that has one child, above the bottom of its run.
    fn dropped(self, alloc: Global, root: RevId, bottom: RevId) -> Result<NotedTree, AllocError>
        requires root { known_parent self root ≡ None }
        requires child { (child : Rev) × (n : ℕ) × IsOnlyChild self root child × IsWay self n bottom child }
        ensures { IfOk result (λ t. t ≡ restrict (is_other root) self) }
    {
        let NotedTree { rows, noted } = self;
        let Noted { runs, leaves } = noted;
        let child = only_child(&rows, bottom, root);
        let others = dropped(runs, root, child)?;
        let left = without(alloc, &rows, root, child)?;
        Ok(NotedTree {
            rows: left,
            noted: Noted {
                runs: others,
                leaves,
            },
        })
    }
}

/// The only child of a revision, above the bottom of its run. It is looked for near the revision before all between are walked.
fn only_child(rows: &Rows, bottom: RevId, rev: RevId) -> RevId
    requires rows { IsRows rows.now }
    requires way { (child : Rev) × (n : ℕ) × IsOnlyChild (tree_of (nodes_of rows.now)) rev child × IsWay (tree_of (nodes_of rows.now)) n bottom child }
    ensures { IsOnlyChild (tree_of (nodes_of rows.now)) rev result }
{
    if let Some(child) = child_of(rows, rev) {
        return child;
    }
    child_below(rows, bottom, rev)
}
