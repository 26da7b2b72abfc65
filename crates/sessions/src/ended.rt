//! What is left of a session at the end.
ghost use Rattle.std.specs.Prelude.{◌≡◌};
ghost use mathlib.Core.List.{IsPrefix};
ghost use Rattle.version_log.specs.Histories.{newest};
ghost use Rattle.sessions.specs.Ends.{is_lost, IsExact};

use crate::session::calls_of;
use std::marker::Model;
use updater_state::Opening;
use version_log::{Front, Published};

/// What is left of a session at the end. Contracts see what was known of the session.
pub struct Ended<J: Opening> {
    pub(crate) number: u16,
    pub(crate) calls: u64,
    pub(crate) pushes: u64,
    pub(crate) waited: u64,
    pub(crate) tried: u64,
    pub(crate) entered: u64,
    pub(crate) lost: bool,
    pub(crate) receipted: Front<J>,
    pub(crate) seen: Front<J>,
}

impl<J: Opening> Drop for Ended<J> {
    fn drop(self) {
        let Ended {
            number: _,
            calls: _,
            pushes: _,
            waited: _,
            tried: _,
            entered: _,
            lost: _,
            receipted: _,
            seen: _,
        } = self;
    }
}

impl<J: Opening> Model for Ended<J> {
    ghost use Rattle.std.specs.Prelude.{◌≡◌, length};
    ghost use Rattle.std.specs.Coded.{codes};
    ghost use Rattle.model.specs.JsonCode.{coded_members};
    ghost use Rattle.model.specs.History.{of_session};
    ghost use Rattle.version_log.specs.Histories.{newest};
    ghost use Rattle.sessions.specs.Known.{Known};

    ghost Value = { Known };

    ghost coded = { Prim.hlevel (codes, coded_members) };

    ghost view = { λ e. record { number = e.number; published = e.seen; receipts = of_session e.number (newest e.receipted); pushes = e.pushes; waited = e.waited; tried = e.tried; entered = e.entered; lost = e.lost } };

    ghost invariant = { λ e. (e.calls ≡ length (of_session e.number (newest e.receipted))) × (of_session e.number (newest e.seen) ≡ of_session e.number (newest e.receipted)) };
}

impl<J: Opening> Ended<J> {
    /// The session's number.
    pub fn number(&self) -> u16
        ensures { result ≡ self.now.number }
    {
        self.number
    }

    /// Whether the session is lost, by the last version. Where it is not, that has exactly its entries
    /// with a receipt.
    pub fn is_lost(&self, last: &Published<J>) -> bool
        ensures lost { result ≡ is_lost (newest last.now) self.now }
        ensures exact { IsPrefix self.now.published last.now → IsExact (newest last.now) self.now }
    {
        if self.lost {
            return true;
        }
        let _recalled = last.publication();
        calls_of(last.version(), self.number) != self.calls
    }
}
