//! A database, and what a command makes of it.
ghost use Rattle.std.specs.Prelude.{◌≡◌, ◌<◌, ◌+◌, IfOk};
ghost use Rattle.model.specs.Command.{IsCommand, IsSeat, max_edits};
ghost use Rattle.model.specs.Database as model;
ghost use Rattle.model.specs.Database.{empty_database, reply_to, changed_by, calls_of, counted};

mod ahead;
mod calls;
mod compaction;
mod edits;
mod epochs;
mod limit;
mod local_writes;
mod merges;
mod parts;
mod purges;
mod reads;
mod stored;

use crate::database::calls::Calls;
use crate::records::Records;
use commands::{Command, CommandKind, Reply, ReplyKind, Seat};
use local_docs::Locals;
pub use parts::DatabaseParts;
pub(crate) use parts::LARGEST_BASE;
use purge::PurgeLog;
use std::alloc::{AllocError, Global};
use std::marker::Model;

/// How many revisions of a path a new database keeps.
const DEFAULT_REVS_LIMIT: u32 = 1000;

/// The documents with their numbers, the local documents, the log of purges, the limit of
/// revisions, and how many commands each session has made.
///
/// Versions lend it to be read. Only their commands change it: in a share of its own, or in its place where `apply`
/// changes the version. Who replays entries and keeps no history of them takes a share and lets the commands act on it.
pub struct Database {
    alloc: Global,
    documents: Records,
    locals: Locals,
    purges: PurgeLog,
    revs_limit: u32,
    calls: Calls,
}

impl Drop for Database {
    fn drop(self) {
        let Database {
            alloc: _,
            documents: _,
            locals: _,
            purges: _,
            revs_limit: _,
            calls: _,
        } = self;
    }
}

impl Model for Database {
    ghost use Rattle.std.specs.Coded.{codes};
    ghost use Rattle.model.specs.JsonCode.{coded_members};
    ghost use Rattle.model.specs.Database.{Database};
    ghost use Rattle.snapshots.specs.Database.{database_with, HasRoom};

    ghost Value = { Database };

    ghost coded = { Prim.hlevel (codes, coded_members) };

    ghost view = { λ d. database_with d.documents d.locals d.purges d.revs_limit d.calls };

    ghost invariant = { λ d. HasRoom d.revs_limit d.documents.update_seq d.purges.purge_seq };
}

impl Database {
    pub(crate) fn new(alloc: Global) -> Database
        ensures { result ≡ empty_database }
    {
        Database {
            alloc,
            documents: Records::new(alloc),
            locals: Locals::new(alloc),
            purges: PurgeLog::new(alloc),
            revs_limit: DEFAULT_REVS_LIMIT,
            calls: Calls::new(alloc),
        }
    }

    /// The same database. It takes no memory.
    pub fn share(&self) -> Result<Database, AllocError>
        ensures { IfOk result (λ d. d ≡ self.now) }
    {
        Ok(Database {
            alloc: self.alloc,
            documents: self.documents.share()?,
            locals: self.locals.share()?,
            purges: self.purges.share()?,
            revs_limit: self.revs_limit,
            calls: self.calls.share()?,
        })
    }

    /// Does the command, and counts it as a call of its session.
    #[tactic(auto, unfolding(model::specs::Database::act))]
    pub fn act(&mut self, seat: Seat, command: &Command) -> Result<Reply, AllocError>
        requires next { seat.call ≡ calls_of self.old seat.session + 1 }
        requires room { self.old.update_seq + max_edits < u64.MAX }
        requires log_room { self.old.purges.purge_seq + max_edits < u64.MAX }
        ensures reply { IfOk result (λ r. r ≡ reply_to self.old command.now) }
        ensures after { IfOk result (λ _. self.new ≡ model.act self.old seat command.now) }
        ensures limits { IfOk result (λ _. IsSeat seat × IsCommand command.now) }
    {
        let reply = self.change(command)?;
        self.count_call(seat.session(), seat.call())?;
        Ok(reply)
    }

    /// What a command changes, and what it is answered.
    #[tactic(auto, unfolding(model::specs::Database::reply_to, model::specs::Database::changed_by))]
    fn change(&mut self, command: &Command) -> Result<Reply, AllocError>
        requires room { self.old.update_seq + max_edits < u64.MAX }
        requires log_room { self.old.purges.purge_seq + max_edits < u64.MAX }
        ensures reply { IfOk result (λ r. r ≡ reply_to self.old command.now) }
        ensures after { IfOk result (λ _. self.new ≡ changed_by self.old command.now) }
        ensures limits { IfOk result (λ _. IsCommand command.now) }
    {
        match command.kind() {
            CommandKind::Edits(edits) => {
                let replies = self.edits(edits.as_slice())?;
                Ok(Reply::new(ReplyKind::Wrote(replies)))
            }
            CommandKind::Merges(merges) => {
                let replies = self.merges(merges)?;
                Ok(Reply::new(ReplyKind::Wrote(replies)))
            }
            CommandKind::PutLocal { id, named, body } => {
                let reply = self.put_local(id, *named, body.as_ref())?;
                Ok(Reply::new(ReplyKind::WroteLocal(reply)))
            }
            CommandKind::Purge(named) => {
                let removed = self.purge_all(named)?;
                let purge_seq = self.purges.purge_seq();
                Ok(Reply::new(ReplyKind::Purged { purge_seq, removed }))
            }
            CommandKind::Compact => {
                self.compact()?;
                Ok(Reply::new(ReplyKind::Done))
            }
            CommandKind::SetLimit(limit) => {
                self.set_limit(*limit);
                Ok(Reply::new(ReplyKind::Done))
            }
            CommandKind::SetPurgedLimit(limit) => {
                self.set_purged_limit(*limit)?;
                Ok(Reply::new(ReplyKind::Done))
            }
        }
    }

    fn count_call(&mut self, session: u16, call: u64) -> Result<(), AllocError>
        requires { call ≡ calls_of self.old session + 1 }
        ensures { IfOk result (λ _. self.new ≡ counted self.old session) }
    {
        self.calls.put(self.alloc, session, call)
    }
}
