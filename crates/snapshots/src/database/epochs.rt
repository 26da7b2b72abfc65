//! The database that the next epoch begins from.
ghost use Rattle.std.specs.Prelude.{◌≡◌, ◌≤◌, ◌<◌, IfOk};
ghost use Rattle.model.specs.History.{successor};

use crate::database::Database;
use crate::database::calls::Calls;
use std::alloc::AllocError;

impl Database {
    /// The same database, in which no session has called. It takes no memory.
    pub fn uncalled(&self) -> Result<Database, AllocError>
        ensures { IfOk result (λ d. d ≡ successor self.now) }
    {
        Ok(Database {
            alloc: self.alloc,
            documents: self.documents.share()?,
            locals: self.locals.share()?,
            purges: self.purges.share()?,
            revs_limit: self.revs_limit,
            calls: Calls::new(self.alloc),
        })
    }

    /// The same database, in which no session has called, and whose next update takes a number above this one. It takes no
    /// memory.
    pub fn uncalled_above(&self, update_seq: u64) -> Result<Database, AllocError>
        requires more { self.now.update_seq ≤ update_seq }
        requires room { update_seq < u64.MAX }
        ensures { IfOk result (λ d. d ≡ record (successor self.now) { update_seq = update_seq }) }
    {
        let mut database = self.uncalled()?;
        database.documents = self.documents.share()?.up_to(update_seq);
        Ok(database)
    }
}
