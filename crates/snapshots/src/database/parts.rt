//! A database from lists of what it has.
ghost use Rattle.std.specs.Prelude.{◌≡◌, ◌≤◌, ◌↔◌, Some, IfOk, IsTrue};
ghost use Rattle.model.specs.Database as model;
ghost use Rattle.model.specs.History.{IsBase, largest_base};
ghost use Rattle.snapshots.specs.Parts.{AreInRange, AreParts};

use crate::database::Database;
use crate::database::calls::Calls;
use crate::record::Record;
use crate::records::Records;
use document_id::DocId;
use local_docs::{LocalDoc, Locals};
use purge::{PurgeLog, Purged};
use std::alloc::{AllocError, Global};

/// The largest update number, and the largest purge number, that a base may have given.
pub(crate) const LARGEST_BASE: u64 = 4_611_686_018_427_387_904;

/// A database as lists of what it has, for one that is read. No session has called in it.
pub struct DatabaseParts {
    /// In the order of the ids, no two under one update number.
    pub documents: Vec<(DocId, Record)>,
    /// In the order of the ids.
    pub locals: Vec<(DocId, LocalDoc)>,
    /// Under their purge numbers, which rise by one up to the last.
    pub purges: Vec<(u64, Purged)>,
    /// The last update number that was given, from 0.
    pub update_seq: u64,
    /// The last purge number that was given, from 0.
    pub purge_seq: u64,
    /// How many purges are kept, from 1.
    pub purged_limit: u32,
    /// How many revisions are kept above a leaf, itself among them, from 1.
    pub revs_limit: u32,
}

impl Drop for DatabaseParts {
    fn drop(self) {
        let DatabaseParts {
            documents: _,
            locals: _,
            purges: _,
            update_seq: _,
            purge_seq: _,
            purged_limit: _,
            revs_limit: _,
        } = self;
    }
}

impl DatabaseParts {
    /// The database of these parts, where a history can begin from it; else nothing.
    pub(crate) fn into_database(self, alloc: Global) -> Result<Option<Database>, AllocError>
        ensures { (d : model.Database) → IfOk result (λ made. (made ≡ Some d) ↔ (AreParts self d × IsBase d)) }
    {
        let DatabaseParts {
            documents,
            locals,
            purges,
            update_seq,
            purge_seq,
            purged_limit,
            revs_limit,
        } = self;
        if !are_in_range(update_seq, purge_seq, revs_limit) {
            return Ok(None);
        }
        let Some(documents) = Records::from_list(alloc, documents, update_seq)? else {
            return Ok(None);
        };
        let Some(locals) = Locals::from_list(alloc, locals)? else {
            return Ok(None);
        };
        let Some(purges) = PurgeLog::from_list(alloc, purges, purge_seq, purged_limit)? else {
            return Ok(None);
        };
        Ok(Some(Database {
            alloc,
            documents,
            locals,
            purges,
            revs_limit,
            calls: Calls::new(alloc),
        }))
    }
}

/// Whether a history may begin over these numbers, and at least one revision is kept above a leaf.
fn are_in_range(update_seq: u64, purge_seq: u64, revs_limit: u32) -> bool
    ensures { IsTrue result ↔ AreInRange update_seq purge_seq revs_limit }
{
    if !is_in_base(update_seq) {
        return false;
    }
    if !is_in_base(purge_seq) {
        return false;
    }
    if revs_limit == 0 {
        return false;
    }
    true
}

/// Whether a base may have given so large a number.
fn is_in_base(number: u64) -> bool
    ensures { IsTrue result ↔ (number ≤ largest_base) }
{
    number <= LARGEST_BASE
}
