//! How the write of a local document is refused.

use std::alloc::AllocError;
use thiserror::Error;

/// Why a local document was not written.
#[derive(Debug, Clone, Copy, PartialEq, Eq, Drop, Error)]
pub enum LocalFault {
    /// The write doesn't name the current revision.
    #[error("not the revision that stands")]
    Conflict,
    /// There is no such document to delete.
    #[error("no such local document")]
    Missing,
    /// The document has the last revision number.
    #[error("no further revision number")]
    LastCounter,
    #[error("out of memory")]
    Memory,
}

impl From<AllocError> for LocalFault {
    ghost use Rattle.std.specs.Prelude.{◌≡◌};
    ghost use Rattle.local_docs.specs.declared.fault.LocalFault.TheVariants.{Memory};

    ghost from_gives = { λ _ fault. fault ≡ Memory };

    fn from(_refused: AllocError) -> LocalFault {
        LocalFault::Memory
    }
}
