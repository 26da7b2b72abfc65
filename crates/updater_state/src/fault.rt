//! Why a batch or a compaction was not published.

use compactor::CopyFault;
use std::alloc::AllocError;
use thiserror::Error;

/// Why a batch was not published.
#[derive(Debug, Clone, Copy, PartialEq, Eq, Drop, Error)]
pub enum PutFault {
    /// The history would have more entries than it may have.
    #[error("the history is full")]
    Full,
    /// Memory was refused.
    #[error("out of memory")]
    Memory,
}

impl From<AllocError> for PutFault {
    ghost use Rattle.std.specs.Prelude.{◌≡◌};
    ghost use Rattle.updater_state.specs.declared.fault.PutFault.TheVariants.{Memory};

    ghost from_gives = { λ _ fault. fault ≡ Memory };

    fn from(_refused: AllocError) -> PutFault {
        PutFault::Memory
    }
}

/// Why the copy of a compaction was not swapped in.
#[derive(Debug, Clone, Copy, PartialEq, Eq, Drop, Error)]
pub enum SwapFault {
    /// The history has no place left.
    #[error("the history is full")]
    Full,
    /// More documents were touched since than may be taken over at the end.
    #[error("the copy is behind")]
    Behind,
    /// A purge since is no longer in the log.
    #[error("the log no longer has a purge that the copy lacks")]
    Overrun,
    /// Memory was refused.
    #[error("out of memory")]
    Memory,
}

impl From<AllocError> for SwapFault {
    ghost use Rattle.std.specs.Prelude.{◌≡◌};
    ghost use Rattle.updater_state.specs.declared.fault.SwapFault.TheVariants.{Memory};

    ghost from_gives = { λ _ fault. fault ≡ Memory };

    fn from(_refused: AllocError) -> SwapFault {
        SwapFault::Memory
    }
}

impl From<CopyFault> for SwapFault {
    ghost use Rattle.std.specs.Prelude.{◌≡◌};
    ghost use Rattle.updater_state.specs.SwapFaults.{swap_fault};

    ghost from_gives = { λ copied fault. fault ≡ swap_fault copied };

    fn from(fault: CopyFault) -> SwapFault {
        match fault {
            CopyFault::Behind => SwapFault::Behind,
            CopyFault::Overrun => SwapFault::Overrun,
            CopyFault::Memory => SwapFault::Memory,
        }
    }
}
