//! Why a call of an end has no answer.

use std::alloc::AllocError;
use thiserror::Error;

/// Why a call of an end has no answer.
#[derive(Clone, Copy, Debug, PartialEq, Eq, Error)]
pub enum PeerFault {
    /// The end failed, and its count of failures rose.
    #[error("a peer failed")]
    Failed,
    /// The answer can't be read.
    #[error("an answer can't be read")]
    Unreadable,
    /// Memory was refused.
    #[error("out of memory")]
    Memory,
    /// The target refused a document, or an end refused its checkpoint.
    #[error("a write was refused")]
    Refused,
}

impl From<AllocError> for PeerFault {
    ghost use Rattle.std.specs.Prelude.{◌≡◌};
    ghost use Rattle.replicator.specs.declared.fault.PeerFault.TheVariants.{Memory};

    ghost from_gives = { λ _ fault. fault ≡ Memory };

    fn from(_refused: AllocError) -> PeerFault {
        PeerFault::Memory
    }
}
