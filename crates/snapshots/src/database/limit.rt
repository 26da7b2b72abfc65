//! The limits of revisions and of the purge log.
ghost use Rattle.std.specs.Prelude.{◌≡◌, ◌<◌, IfOk};
ghost use Rattle.model.specs.PurgeLog.{limited};

use crate::database::Database;
use std::alloc::AllocError;

impl Database {
    /// Sets how many revisions the next writes keep above a leaf.
    pub(super) fn set_limit(&mut self, limit: u32)
        requires { 0 < limit }
        ensures { self.new ≡ record self.old { revs_limit = limit } }
    {
        self.revs_limit = limit;
    }

    /// Sets how many purges the log keeps, and leaves it the newest of its own.
    pub(super) fn set_purged_limit(&mut self, limit: u32) -> Result<(), AllocError>
        requires { 0 < limit }
        ensures { IfOk result (λ _. self.new ≡ record self.old { purges = limited self.old.purges limit }) }
    {
        self.purges = self.purges.set_limit(limit)?;
        Ok(())
    }
}
