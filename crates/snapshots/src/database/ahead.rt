//! What is read ahead of the writes of a command.

use crate::database::Database;
use commands::{Command, CommandKind, Edit, Merge};
use document_id::DocId;
use std::alloc::AllocError;

/// So many documents are read ahead at once: of more, what was read first could have left the caches before it is written.
pub(super) const AHEAD: usize = 64;

impl Database {
    /// Looks up the first 64 documents of a command's edits or merges, where the database has 4,096 documents or more, for
    /// whoever does the command soon, with this database or a later one. It changes nothing, and looks up fewer or none
    /// where memory is refused.
    pub fn read_ahead(&self, command: &Command) {
        match command.kind() {
            CommandKind::Edits(edits) => self.read_edits_ahead(edits.as_slice()),
            CommandKind::Merges(merges) => self.read_merges_ahead(merges),
            CommandKind::PutLocal { .. }
            | CommandKind::Purge(_)
            | CommandKind::SetLimit(_)
            | CommandKind::SetPurgedLimit(_)
            | CommandKind::Compact => {}
        }
    }

    /// The same of the first of these edits.
    pub(super) fn read_edits_ahead(&self, edits: &[Edit]) {
        let ids = edits
            .iter()
            .take(AHEAD)
            .map(|edit| &edit.id)
            .collect(self.alloc);
        self.read_all_ahead(ids);
    }

    /// The same of the first of these merges.
    pub(super) fn read_merges_ahead(&self, merges: &[Merge]) {
        let ids = merges.iter().take(AHEAD).map(Merge::id).collect(self.alloc);
        self.read_all_ahead(ids);
    }

    fn read_all_ahead(&self, ids: Result<Vec<&DocId>, AllocError>) {
        if let Ok(ids) = ids {
            self.documents.read_ahead(self.alloc, &ids);
        }
    }
}
