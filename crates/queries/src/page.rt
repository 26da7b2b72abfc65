//! The changes feed and the counts of a database.

use document_id::DocId;
use revision_id::RevId;
use std::marker::Model;

/// A document at its last update.
pub struct Row {
    /// The number of the update.
    pub seq: u64,
    pub id: DocId,
    /// The winner, or all leaves.
    pub changes: Vec<RevId>,
    /// Whether the winner is deleted.
    pub deleted: bool,
}

impl Drop for Row {
    fn drop(self) {
        let Row {
            seq: _,
            id: _,
            changes: _,
            deleted: _,
        } = self;
    }
}

impl Model for Row {
    ghost use Rattle.model.specs.Query.{Row};

    ghost Value = { Row };

    ghost view = { λ r. record { seq = r.seq; id = r.id; changes = r.changes.items; deleted = r.deleted } };
}

/// Some of the changes.
pub struct ChangesPage {
    /// The number to go on from.
    pub last_seq: u64,
    /// How many rows are left.
    pub pending: u64,
    pub rows: Vec<Row>,
}

impl Drop for ChangesPage {
    fn drop(self) {
        let ChangesPage {
            last_seq: _,
            pending: _,
            rows: _,
        } = self;
    }
}

impl Model for ChangesPage {
    ghost use Rattle.model.specs.Query.{ChangesPage};

    ghost Value = { ChangesPage };

    ghost view = { λ p. record { last_seq = p.last_seq; pending = p.pending; rows = p.rows.items } };
}

/// How much the database holds.
#[derive(Debug, Clone, Copy, Drop)]
pub struct Counts {
    pub doc_count: u64,
    pub doc_del_count: u64,
    pub update_seq: u64,
    pub purge_seq: u64,
}

impl Model for Counts {
    ghost use Rattle.model.specs.Query.{Counts};

    ghost Value = { Counts };

    ghost view = { λ c. record { doc_count = c.doc_count; doc_del_count = c.doc_del_count; update_seq = c.update_seq; purge_seq = c.purge_seq } };

    ghost inverse = { λ c. record { doc_count = c.doc_count; doc_del_count = c.doc_del_count; update_seq = c.update_seq; purge_seq = c.purge_seq } };
}
