//! Compactions: at once, or by a copy that was made beside.
ghost use Rattle.std.specs.Prelude.{◌≡◌, ◌+◌, IfOk};
ghost use Rattle.model.specs.Command.{Compact, IsSeat};
ghost use Rattle.model.specs.Database as model;
ghost use Rattle.model.specs.Database.{compacted, calls_of};

use crate::database::Database;
use crate::records::Records;
use commands::Seat;
use std::alloc::AllocError;

impl Database {
    /// Strips each record.
    pub(super) fn compact(&mut self) -> Result<(), AllocError>
        ensures { IfOk result (λ _. self.new ≡ compacted self.old) }
    {
        self.documents = self.documents.stripped(self.alloc)?;
        Ok(())
    }

    /// With these stripped documents in place of its own: a compaction, counted as a call of its
    /// session.
    #[tactic(auto, unfolding(model::specs::Database::act, model::specs::Database::changed_by))]
    pub(crate) fn compact_with(&mut self, seat: Seat, records: Records) -> Result<(), AllocError>
        requires next { seat.call ≡ calls_of self.old seat.session + 1 }
        requires stripped { records ≡ record { docs = (compacted self.old).docs; update_seq = self.old.update_seq } }
        ensures after { IfOk result (λ _. self.new ≡ model.act self.old seat Compact) }
        ensures limits { IfOk result (λ _. IsSeat seat) }
    {
        self.with_records(records);
        self.count_call(seat.session(), seat.call())?;
        Ok(())
    }

    /// With these documents in place of its own.
    fn with_records(&mut self, records: Records)
        requires { records.update_seq ≡ self.old.update_seq }
        ensures { self.new ≡ record self.old { docs = records.docs } }
    {
        self.documents = records;
    }
}
