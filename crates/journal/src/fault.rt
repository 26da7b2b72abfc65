//! Why a journal didn't do what it was asked.

use std::alloc::AllocError;
use thiserror::Error;

/// Why a journal didn't do what it was asked.
#[derive(Debug, Clone, Copy, Drop, Error)]
pub enum JournalFault {
    /// Memory was refused. Nothing was appended.
    #[error("out of memory")]
    Memory,
    /// A write or a sync failed, now or earlier. From then on nothing is appended or synced.
    #[error("a write or a sync of the journal failed")]
    Failed,
}

impl From<AllocError> for JournalFault {
    ghost use Rattle.std.specs.Prelude.{◌≡◌};
    ghost use Rattle.journal.specs.declared.fault.JournalFault.TheVariants.{Memory};

    ghost from_gives = { λ _ fault. fault ≡ Memory };

    fn from(_refused: AllocError) -> JournalFault {
        JournalFault::Memory
    }
}
