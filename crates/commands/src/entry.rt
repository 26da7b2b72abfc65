//! Commands that wait, and those that were answered.
ghost use Rattle.std.specs.Prelude.{◌≡◌, IfOk};

use crate::command::Command;
use crate::copied::Copied;
use crate::reply::Reply;
use crate::seat::Seat;
use std::alloc::{AllocError, Global};
use std::marker::Model;

/// A command that waits for its turn.
pub struct Job {
    pub seat: Seat,
    pub command: Command,
}

impl Drop for Job {
    fn drop(self) {
        let Job {
            seat: _,
            command: _,
        } = self;
    }
}

impl Model for Job {
    ghost use Rattle.model.specs.Command.{Job};
    ghost use Rattle.std.specs.Coded.{codes};
    ghost use Rattle.model.specs.JsonCode.{coded_members};

    ghost Value = { Job };

    ghost coded = { Prim.hlevel (codes, coded_members) };

    ghost view = { λ j. record { seat = j.seat; command = j.command } };
}

/// A command that was answered.
pub struct Entry {
    pub seat: Seat,
    pub command: Command,
    pub reply: Reply,
}

impl Drop for Entry {
    fn drop(self) {
        let Entry {
            seat: _,
            command: _,
            reply: _,
        } = self;
    }
}

impl Model for Entry {
    ghost use Rattle.model.specs.Command.{Entry};
    ghost use Rattle.std.specs.Coded.{codes};
    ghost use Rattle.model.specs.JsonCode.{coded_members};

    ghost Value = { Entry };

    ghost coded = { Prim.hlevel (codes, coded_members) };

    ghost view = { λ e. record { seat = e.seat; command = e.command; reply = e.reply } };
}

impl Copied for Entry {
    fn copy(&self, alloc: Global) -> Result<Entry, AllocError> {
        Ok(Entry {
            seat: self.seat,
            command: self.command.copy(alloc)?,
            reply: self.reply.copy(alloc)?,
        })
    }
}
