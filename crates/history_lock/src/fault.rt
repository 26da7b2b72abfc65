//! Why a closed database has no successor.

use std::alloc::AllocError;
use thiserror::Error;

/// Why a closed database has no successor.
#[derive(Debug, Clone, Copy, PartialEq, Eq, Drop, Error)]
pub enum SuccessorFault {
    /// Its update number or its purge number is above 4611686018427387904, so the numbers of a next epoch could run out.
    #[error("too few numbers are left for a next epoch")]
    NumbersTooLarge,
    /// Memory was refused.
    #[error("out of memory")]
    Memory,
}

impl From<AllocError> for SuccessorFault {
    ghost use Rattle.std.specs.Prelude.{◌≡◌};
    ghost use Rattle.history_lock.specs.declared.fault.SuccessorFault.TheVariants.{Memory};

    ghost from_gives = { λ _ fault. fault ≡ Memory };

    fn from(_refused: AllocError) -> SuccessorFault {
        SuccessorFault::Memory
    }
}
