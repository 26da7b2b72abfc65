//! A document as it is kept.
ghost use Rattle.std.specs.Prelude.{◌≡◌, IfOk};
ghost use Rattle.model.specs.Answers.{is_live};
ghost use Rattle.model.specs.Database.{stripped};

use revision_tree::RevTree;
use std::alloc::{AllocError, Global};
use std::marker::Model;
use tree_merge::strip;

/// The revisions of a document, and the number of its last update.
pub struct Record {
    tree: RevTree,
    seq: u64,
}

impl Drop for Record {
    fn drop(self) {
        let Record { tree: _, seq: _ } = self;
    }
}

impl Model for Record {
    ghost use Rattle.model.specs.Database.{Record};
    ghost use Rattle.snapshots.specs.Codes.{coded_record};

    ghost Value = { Record };

    ghost coded = { coded_record };

    ghost view = { λ r. record { tree = r.tree; seq = r.seq } };
}

impl Record {
    /// The record of a document with these revisions, last updated under that number.
    pub fn new(tree: RevTree, seq: u64) -> Record
        ensures { result ≡ record { tree = tree; seq = seq } }
    {
        Record { tree, seq }
    }

    /// Its revisions.
    pub fn tree(&self) -> &RevTree
        ensures { result.now ≡ self.now.tree }
    {
        &self.tree
    }

    /// The update number, from 1.
    pub fn seq(&self) -> u64
        ensures { result ≡ self.now.seq }
    {
        self.seq
    }

    /// The same record with the bodies of its leaves alone.
    pub fn stripped(&self, alloc: Global) -> Result<Record, AllocError>
        ensures { IfOk result (λ r. r ≡ stripped self.now) }
    {
        Ok(Record {
            tree: strip(alloc, &self.tree)?,
            seq: self.seq,
        })
    }

    /// Whether the document's winner is not deleted.
    pub fn is_live(&self) -> bool
        ensures { result ≡ is_live self.now }
    {
        !self.tree.winner().deleted
    }
}
