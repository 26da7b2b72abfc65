//! Why a call has no answer.

use compactor::CopyFault;
use thiserror::Error;

/// Why a call has no answer. Only after `Lost` is the session of no more use. After each other fault it learned of no
/// entry of the call, and its next receipt shows that there is none.
#[derive(Clone, Copy, Debug, PartialEq, Eq, Drop, Error)]
pub enum Fault {
    /// Memory was refused.
    #[error("out of memory")]
    Memory,
    /// The queue was full.
    #[error("busy")]
    Busy,
    /// What became of a call of this session is not known: it may have left an entry. All later
    /// calls answer this.
    #[error("lost")]
    Lost,
    /// The history is full.
    #[error("the history is full")]
    Full,
    /// A reader, an entry or a share was refused, or a call of this session without a receipt is in
    /// the history that was found. A wait or a compaction may have looked before.
    #[error("the entry was refused")]
    EntryRefused,
    /// Others wrote faster than the compaction could catch up, each time that it was tried.
    #[error("behind")]
    Behind,
    /// So much was purged meanwhile that the compaction can't catch up.
    #[error("overrun")]
    Overrun,
}

impl From<CopyFault> for Fault {
    ghost use Rattle.std.specs.Prelude.{◌≡◌};
    ghost use Rattle.sessions.specs.Compactions.{fault_of};

    ghost from_gives = { λ copied fault. fault ≡ fault_of copied };

    fn from(fault: CopyFault) -> Fault {
        match fault {
            CopyFault::Behind => Fault::Behind,
            CopyFault::Overrun => Fault::Overrun,
            CopyFault::Memory => Fault::Memory,
        }
    }
}
