//! What the updater answers for a job that it took. The types carry the answer, so that its receiver need
//! know nothing of where it lay.
ghost use Rattle.std.specs.Prelude.{◌≡◌, ◌≤◌, Some, length, option_map};
ghost use Rattle.model.specs.Command.{Entry};
ghost use Rattle.snapshots.specs.Version.{entry_at};
ghost use Rattle.version_log.specs.Histories.{newest, Grows};

use crate::naming::Opening;
use commands::Reply;
use std::marker::Model;
use version_log::{Naming, Published};

/// An entry of the history, with the version with which it was published.
pub struct Answer<J: Naming> {
    found: Published<J>,
    place: u64,
    reply: Reply,
}

impl<J: Naming> Drop for Answer<J> {
    fn drop(self) {
        let Answer {
            found: _,
            place: _,
            reply: _,
        } = self;
    }
}

impl<J: Naming> Model for Answer<J> {
    ghost use Rattle.std.specs.Coded.{codes};
    ghost use Rattle.model.specs.JsonCode.{coded_members};
    ghost use Rattle.updater_state.specs.Answers.{Stands, IsAnswer};

    ghost Value = { Stands };

    ghost coded = { Prim.hlevel (codes, coded_members) };

    ghost view = { λ a. record { published = a.found; place = a.place; reply = a.reply } };

    ghost invariant = { λ a. IsAnswer J.base (record { published = a.found; place = a.place; reply = a.reply }) };
}

impl<J: Naming> Answer<J> {
    /// The answer at a place of a published version.
    pub(crate) fn new(found: Published<J>, place: u64, reply: Reply) -> Answer<J>
        requires grows { Grows J.base found }
        requires counted { length found ≤ place }
        requires stands { option_map (λ (e : Entry). e.reply) (entry_at (newest found) place) ≡ Some reply }
        ensures { result ≡ record { published = found; place = place; reply = reply } }
    {
        Answer {
            found,
            place,
            reply,
        }
    }

    /// The version, the entry's place in it, and its reply.
    pub fn into_parts(self) -> (Published<J>, u64, Reply)
        ensures parts { (result.0 ≡ self.published) × (result.1 ≡ self.place) × (result.2 ≡ self.reply) }
        ensures grows { Grows J.base result.0 }
        ensures counted { length result.0 ≤ result.1 }
        ensures stands { option_map (λ (e : Entry). e.reply) (entry_at (newest result.0) result.1) ≡ Some result.2 }
    {
        let Answer {
            found,
            place,
            reply,
        } = self;
        (found, place, reply)
    }
}

/// A published version whose history has no place left.
pub struct Filled<J: Opening> {
    found: Published<J>,
}

impl<J: Opening> Drop for Filled<J> {
    fn drop(self) {
        let Filled { found: _ } = self;
    }
}

impl<J: Opening> Model for Filled<J> {
    ghost use Rattle.std.specs.Prelude.{◌≡◌, List, length};
    ghost use Rattle.std.specs.Coded.{codes};
    ghost use Rattle.model.specs.JsonCode.{coded_members};
    ghost use Rattle.model.specs.Command.{Entry};
    ghost use Rattle.version_log.specs.Histories.{newest};

    ghost Value = { List (List Entry) };

    ghost coded = { Prim.hlevel (codes, coded_members) };

    ghost view = { λ f. f.found };

    ghost invariant = { λ f. length (newest f.found) ≡ J.config.max_places };
}

impl<J: Opening> Filled<J> {
    pub(crate) fn new(found: Published<J>) -> Filled<J>
        requires { length (newest found) ≡ J.config.max_places }
        ensures { result ≡ found }
    {
        Filled { found }
    }

    /// The version.
    pub fn into_found(self) -> Published<J>
        ensures found { result ≡ self }
        ensures full { length (newest result) ≡ J.config.max_places }
    {
        let Filled { found } = self;
        found
    }
}
