//! Look-ups of documents that are about to be written.

use crate::records::{Records, Replaced};
use cow_index::descend_each;
use document_id::DocId;
use std::alloc::{AllocError, Global};

/// The maps of fewer documents are in the processor's caches as they are.
const LARGE: u64 = 4_096;

impl Records {
    /// Looks up documents that are about to be written, each by its id and by its number, so that the writes find what
    /// they need in the processor's caches. The look-ups go down side by side, and so wait for memory together. Nothing
    /// changes, and nothing is lost where memory is refused.
    pub(crate) fn read_ahead(&self, alloc: Global, ids: &[&DocId]) {
        if self.by_id.len() < LARGE {
            return;
        }
        if let Ok(replaced) = self.replaced_of(alloc, ids) {
            let _visited = self.visit_numbers(alloc, &replaced);
        }
    }

    /// What their writes replace.
    fn replaced_of(&self, alloc: Global, ids: &[&DocId]) -> Result<Vec<Replaced>, AllocError> {
        let mut look_ups = Vec::with_capacity(alloc, ids.len())?;
        for id in ids {
            look_ups.push(self.by_id.look_up(id))?;
        }
        descend_each(&mut look_ups, self.by_id.height());
        let mut replaced = Vec::with_capacity(alloc, ids.len())?;
        for look_up in &look_ups {
            if let Some(stored) = look_up.value() {
                replaced.push(Replaced::of(stored.get()))?;
            }
        }
        Ok(replaced)
    }

    fn visit_numbers(&self, alloc: Global, replaced: &[Replaced]) -> Result<(), AllocError> {
        let mut look_ups = Vec::with_capacity(alloc, replaced.len())?;
        for record in replaced {
            look_ups.push(self.by_number.look_up(&record.seq))?;
        }
        descend_each(&mut look_ups, self.by_number.height());
        Ok(())
    }
}
