//! Why a compaction does not go on.

use std::alloc::AllocError;
use thiserror::Error;

/// Why a copy was not taken on, or did not end.
#[derive(Debug, Clone, Copy, PartialEq, Eq, Drop, Error)]
pub enum CopyFault {
    /// More documents were touched since than may be taken over at the end.
    #[error("the copy is behind")]
    Behind,
    /// A purge since is no longer in the log.
    #[error("the log no longer has a purge that the copy lacks")]
    Overrun,
    /// Memory was refused.
    #[error("out of memory")]
    Memory,
}

impl From<AllocError> for CopyFault {
    ghost use Rattle.std.specs.Prelude.{◌≡◌};
    ghost use Rattle.compactor.specs.declared.fault.CopyFault.TheVariants.{Memory};

    ghost from_gives = { λ _ fault. fault ≡ Memory };

    fn from(_refused: AllocError) -> CopyFault {
        CopyFault::Memory
    }
}
