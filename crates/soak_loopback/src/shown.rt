//! The rows that a follower has taken.

use changes_feed::{Follower, changes};
use document_id::DocId;
use model::Style;
use queries::Row;
use snapshots::Version;
use std::alloc::{AllocError, Global};
use std::collections::BTreeMap;

/// At most how many rows are taken at once.
const PIECE: u64 = 3;

/// The row that was taken last of each document.
#[derive(Drop)]
pub(crate) struct Shown {
    follower: Follower,
    rows: BTreeMap<DocId, Row>,
}

impl Shown {
    /// Nothing was taken.
    pub(crate) fn new(alloc: Global) -> Shown {
        Shown {
            follower: Follower::new(0, Style::AllDocs),
            rows: BTreeMap::new(alloc),
        }
    }

    /// Takes all rows of a version above those that were taken, some at once.
    pub(crate) fn take(&mut self, alloc: Global, version: &Version) -> Result<(), AllocError> {
        for _piece in 0..u64::MAX {
            let rows = self.follower.next(alloc, version, PIECE)?;
            if rows.is_empty() {
                return Ok(());
            }
            for row in rows {
                self.put(row)?;
            }
        }
        Ok(())
    }

    fn put(&mut self, row: Row) -> Result<(), AllocError> {
        match self.rows.insert(row.id.share()?, row) {
            Ok(_before) => Ok(()),
            Err(_) => Err(AllocError),
        }
    }

    pub(crate) fn len(&self) -> usize {
        self.rows.len()
    }

    /// Whether these are the rows of a version.
    pub(crate) fn is_all_of(&self, alloc: Global, version: &Version) -> Result<bool, AllocError> {
        let page = changes(alloc, version, 0, None, Style::AllDocs)?;
        Ok(page.rows.len() == self.rows.len() && page.rows.iter().all(|row| self.has(row)))
    }

    fn has(&self, row: &Row) -> bool {
        match self.rows.get(&row.id) {
            Some(shown) => is_same(shown, row),
            None => false,
        }
    }
}

fn is_same(row: &Row, other: &Row) -> bool {
    row.seq == other.seq && row.deleted == other.deleted && row.changes == other.changes
}
