//! What is left at the end.
ghost use Rattle.std.specs.Prelude.{◌≡◌};
ghost use Rattle.version_log.specs.Histories.{newest};

use snapshots::Version;
use std::marker::Model;
use updater_state::Opening;
use version_log::Published;

/// What is left at the end: the last version, and the numbers of the lost sessions.
pub struct Closed<J: Opening> {
    last: Published<J>,
    lost: Vec<u16>,
}

impl<J: Opening> Drop for Closed<J> {
    fn drop(self) {
        let Closed { last: _, lost: _ } = self;
    }
}

impl<J: Opening> Model for Closed<J> {
    ghost use Rattle.std.specs.Coded.{codes};
    ghost use Rattle.model.specs.JsonCode.{coded_members};
    ghost use Rattle.version_log.specs.Histories.{newest};
    ghost use Rattle.history_lock.specs.Ending.{Ending};

    ghost Value = { Ending };

    ghost coded = { Prim.hlevel (codes, coded_members) };

    ghost view = { λ c. record { history = newest c.last; lost = c.lost.items } };
}

impl<J: Opening> Closed<J> {
    pub(crate) fn new(last: Published<J>, lost: Vec<u16>) -> Closed<J>
        ensures { result ≡ record { history = newest last; lost = lost.items } }
    {
        Closed { last, lost }
    }

    /// The last version.
    pub fn version(&self) -> &Version
        ensures { result.now ≡ record { base = J.base; entries = self.now.history } }
    {
        self.last.version()
    }

    /// The numbers of the lost sessions, in the order in which they were given.
    pub fn lost(&self) -> &[u16]
        ensures { result.now ≡ self.now.lost }
    {
        &self.lost
    }
}
