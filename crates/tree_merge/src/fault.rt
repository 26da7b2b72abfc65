//! Why a path is not grafted.

use std::alloc::AllocError;
use thiserror::Error;

/// Why no tree was made.
#[derive(Debug, Clone, Copy, PartialEq, Eq, Drop, Error)]
pub enum MergeFault {
    /// A member of the path has a known parent other than the next member.
    #[error("the path contradicts a known parent")]
    Contradiction,
    /// Memory was refused.
    #[error("out of memory")]
    Memory,
}

impl From<AllocError> for MergeFault {
    ghost use Rattle.std.specs.Prelude.{◌≡◌};
    ghost use Rattle.tree_merge.specs.declared.fault.MergeFault.TheVariants.{Memory};

    ghost from_gives = { λ _ fault. fault ≡ Memory };

    fn from(_refused: AllocError) -> MergeFault {
        MergeFault::Memory
    }
}
