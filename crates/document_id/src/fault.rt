//! How an id is refused.

use std::alloc::AllocError;
use thiserror::Error;

/// Why no id was given.
#[derive(Debug, Clone, Copy, PartialEq, Eq, Drop, Error)]
pub enum IdFault {
    #[error("an id has 1 to 512 bytes")]
    Length,
    #[error("out of memory")]
    Memory,
}

impl From<AllocError> for IdFault {
    ghost use Rattle.std.specs.Prelude.{◌≡◌};
    ghost use Rattle.document_id.specs.declared.fault.IdFault.TheVariants.{Memory};

    ghost from_gives = { λ _ fault. fault ≡ Memory };

    fn from(_refused: AllocError) -> IdFault {
        IdFault::Memory
    }
}
