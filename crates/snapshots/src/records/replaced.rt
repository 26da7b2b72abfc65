//! What a write must know of the record that it replaces.
ghost use Rattle.std.specs.Prelude.{◌≡◌};
ghost use Rattle.snapshots.specs.Replaced.{replaced};

use crate::record::Record;

/// The number of a record, and whether it is live. With these no look-up is needed to replace it.
#[derive(Clone, Copy)]
pub(crate) struct Replaced {
    pub(crate) seq: u64,
    pub(crate) is_live: bool,
}

impl Replaced {
    pub(crate) fn of(stored: &Record) -> Replaced
        ensures { result ≡ replaced stored.now }
    {
        Replaced {
            seq: stored.seq(),
            is_live: stored.is_live(),
        }
    }
}
