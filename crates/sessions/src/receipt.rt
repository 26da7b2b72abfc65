//! What a written command is answered with.

use commands::{Reply, Seat};
use std::marker::Model;

/// A command that was written.
pub struct Receipt {
    /// The place of its entry, from 1.
    pub place: u64,
    /// The session, and the number of its call.
    pub seat: Seat,
    /// What the command was answered.
    pub reply: Reply,
    /// The publication with which the entry came, from 1.
    pub publication: u64,
}

impl Drop for Receipt {
    fn drop(self) {
        let Receipt {
            place: _,
            seat: _,
            reply: _,
            publication: _,
        } = self;
    }
}

impl Model for Receipt {
    ghost use Rattle.std.specs.Coded.{codes};
    ghost use Rattle.model.specs.JsonCode.{coded_members};
    ghost use Rattle.sessions.specs.Calls.{Told};

    ghost Value = { Told };

    ghost coded = { Prim.hlevel (codes, coded_members) };

    ghost view = { λ r. record { place = r.place; seat = r.seat; reply = r.reply; publication = r.publication } };
}
