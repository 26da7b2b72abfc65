//! What runs ask of a session.

use crate::content::told;
use crate::told::Told;
use commands::Command;
use sessions::Session;
use snapshots::Version;
use std::sync::Wait;
use updater_state::{Core, Gate, Opening};

/// Makes calls on a database, which wait by the context `X`.
pub(crate) trait Caller<X> {
    fn write(&mut self, context: &X, command: Command) -> Told;

    fn compact(&mut self, context: &X) -> Told;

    /// Sees what is published, and says whether it was let.
    fn refresh(&mut self) -> bool;

    /// Afterwards both have seen one history, where there is an answer, which is its length.
    fn meet(&mut self, other: &mut Self) -> Option<u64>;

    /// What was seen.
    fn version(&self) -> &Version;
}

impl<R: Wait + Drop, J: Opening, G: Gate + Drop, X: Wait> Caller<X> for Session<Core<R, J>, J, G> {
    fn write(&mut self, context: &X, command: Command) -> Told {
        if command.is_compaction() {
            let answer = self.compact(context);
            return told(answer, self.version());
        }
        let answer = self.write(context, command);
        told(answer, self.version())
    }

    fn compact(&mut self, context: &X) -> Told {
        let answer = self.compact(context);
        told(answer, self.version())
    }

    fn refresh(&mut self) -> bool {
        self.refresh().is_ok()
    }

    fn meet(&mut self, other: &mut Self) -> Option<u64> {
        self.meet(other).ok()
    }

    fn version(&self) -> &Version {
        self.version()
    }
}
