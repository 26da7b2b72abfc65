//! How an epoch begins, and from what.
ghost use Rattle.std.specs.Prelude.{◌≡◌, ◌≤◌, ◌<◌, ◌⊎◌, ◌↔◌, [], Some, IfOk, MatchBool, option_copied};
ghost use Rattle.model.specs.History.{Chronicle, now, IsBase, largest_base, successor};
ghost use Rattle.snapshots.specs.Parts.{BeginsFrom};

use crate::base::Base;
use crate::database::{Database, DatabaseParts, LARGEST_BASE};
use crate::version::Version;
use shared_list::SharedList;
use std::alloc::{AllocError, Global};

impl Version {
    /// The database that the history begins from, where it names one. A first epoch names none, and begins from the empty
    /// database.
    pub fn base(&self) -> Option<&Database>
        ensures { option_copied result ≡ self.now.base }
    {
        self.base.database()
    }

    /// Whether there can be a next epoch: neither its update number nor its purge number is too large for one.
    pub fn has_successor(&self) -> bool
        ensures { MatchBool result (((now self.now).update_seq ≤ largest_base) × ((now self.now).purges.purge_seq ≤ largest_base))
            ((largest_base < (now self.now).update_seq) ⊎ (largest_base < (now self.now).purges.purge_seq)) }
    {
        let updates = self.database.documents().update_seq();
        let purges = self.database.purges().purge_seq();
        updates <= LARGEST_BASE && purges <= LARGEST_BASE
    }

    /// The version with which the next epoch begins: it has no entries, over what this one's history makes of its base,
    /// where no session has called.
    pub fn successor(&self) -> Result<Version, AllocError>
        requires updates { (now self.now).update_seq ≤ largest_base }
        requires purges { (now self.now).purges.purge_seq ≤ largest_base }
        ensures successor { IfOk result (λ v. v ≡ record { base = Some (successor (now self.now)); entries = [] }) }
    {
        let _recalled = self.place();
        let database = self.database.uncalled()?;
        Version::over(self.alloc, database)
    }

    /// The version of no entries over the database of these parts, where a history can begin from it: it is one that a
    /// database can be, and neither its update number nor its purge number is too large. Of other parts nothing.
    pub fn from_parts(alloc: Global, parts: DatabaseParts) -> Result<Option<Version>, AllocError>
        ensures begun { (v : Chronicle) → IfOk result (λ made. (made ≡ Some v) ↔ BeginsFrom parts v) }
    {
        let Some(database) = parts.into_database(alloc)? else {
            return Ok(None);
        };
        Ok(Some(Version::over(alloc, database)?))
    }

    /// The version of no entries over this database.
    pub fn over(alloc: Global, database: Database) -> Result<Version, AllocError>
        requires { IsBase database }
        ensures { IfOk result (λ v. v ≡ record { base = Some database; entries = [] }) }
    {
        let base = Base::new(alloc, database.share()?)?;
        Ok(Version {
            alloc,
            base,
            database,
            history: SharedList::new(alloc),
        })
    }
}
