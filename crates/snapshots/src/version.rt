//! A version of the database.
ghost use Rattle.std.specs.Prelude.{◌≡◌, ◌<◌, ◌+◌, ◌∷◌, ◌++◌, [], Some, None, length, IfOk, OnErr, option_copied, if◌then◌else◌};
ghost use Rattle.model.specs.PurgeLog.{is_overrun};
ghost use Rattle.model.specs.Compaction.{touched};
ghost use Rattle.model.specs.Command.{Compact, IsCommand, IsSeat, max_edits};
ghost use Rattle.model.specs.Database.{act, calls_of, compacted};
ghost use Rattle.model.specs.History.{now, extended, entry_of};
ghost use Rattle.snapshots.specs.Version.{IsHistory, entry_at};

mod epochs;

use crate::base::Base;
use crate::database::Database;
use crate::records::Records;
use commands::{Command, Copied, Entry, Reply, ReplyKind, Seat};
use shared_list::SharedList;
use std::alloc::{AllocError, Global};
use std::marker::Model;

/// What a history of answered commands makes of the database that it began from. Contracts see the
/// history.
///
/// No call changes what another version holds: a command gives a new version, or makes this one the next, which shares
/// with the older ones all but the nodes on the way to what it changes.
pub struct Version {
    alloc: Global,
    base: Base,
    database: Database,
    history: SharedList<Entry>,
}

impl Drop for Version {
    fn drop(self) {
        let Version {
            alloc: _,
            base: _,
            database: _,
            history: _,
        } = self;
    }
}

impl Model for Version {
    ghost use Rattle.std.specs.Coded.{codes};
    ghost use Rattle.model.specs.JsonCode.{coded_members};
    ghost use Rattle.model.specs.History.{Chronicle};
    ghost use Rattle.snapshots.specs.Version.{chronicle_of, IsVersion};

    ghost Value = { Chronicle };

    ghost coded = { Prim.hlevel (codes, coded_members) };

    ghost view = { λ v. chronicle_of v.base v.history.values };

    ghost invariant = { λ v. IsVersion v.base v.database v.history.values };
}

impl Version {
    /// The version with which a first epoch begins: it has no entries, and names no base.
    pub fn empty(alloc: Global) -> Version
        ensures { result ≡ record { base = None; entries = [] } }
    {
        Version {
            alloc,
            base: Base::unnamed(),
            database: Database::new(alloc),
            history: SharedList::new(alloc),
        }
    }

    /// The same version. It takes no memory, but is refused at the largest count of owners.
    pub fn share(&self) -> Result<Version, AllocError>
        ensures same { IfOk result (λ v. v ≡ self.now) }
    {
        Ok(Version {
            alloc: self.alloc,
            base: self.base.share()?,
            database: self.database.share()?,
            history: self.history.share()?,
        })
    }

    /// What the history makes of the base.
    pub fn database(&self) -> &Database
        ensures { result.now ≡ now self.now }
    {
        &self.database
    }

    /// Its documents, which it shares. It takes no memory, but is refused at the largest count of owners.
    pub fn records(&self) -> Result<Records, AllocError>
        ensures same { IfOk result (λ r. r ≡ record { docs = (now self.now).docs; update_seq = (now self.now).update_seq }) }
    {
        self.database.documents().share()
    }

    /// The version after one more command.
    pub fn act(&self, seat: Seat, command: &Command) -> Result<Version, AllocError>
        requires next { seat.call ≡ calls_of (now self.now) seat.session + 1 }
        requires room { length self.now.entries < 4294967295 }
        ensures pushed { IfOk result (λ v. v ≡ extended self.now (entry_of (now self.now) seat command.now ∷ [])) }
    {
        let mut next = self.share()?;
        next.apply(seat, command)?;
        Ok(next)
    }

    /// As [`act`](Version::act), of a version that becomes the next one: what no other version holds is changed in its
    /// place. Where memory is refused, nothing is left of it.
    pub fn apply(&mut self, seat: Seat, command: &Command) -> Result<(), AllocError>
        requires next { seat.call ≡ calls_of (now self.old) seat.session + 1 }
        requires room { length self.old.entries < 4294967295 }
        ensures pushed { IfOk result (λ _. self.new ≡ extended self.old (entry_of (now self.old) seat command.now ∷ [])) }
        ensures lost { OnErr result (self.new ≡ record { base = None; entries = [] }) }
    {
        let alloc = self.alloc;
        let Ok(()) = apply_to(alloc, &mut self.database, &mut self.history, seat, command) else {
            self.base = Base::unnamed();
            self.database = Database::new(alloc);
            self.history = SharedList::new(alloc);
            return Err(AllocError);
        };
        Ok(())
    }

    /// The version after a compaction by that call, where these are its documents, stripped.
    pub fn with_records(&self, seat: Seat, records: Records) -> Result<Version, AllocError>
        requires stripped { records ≡ record { docs = (compacted (now self.now)).docs; update_seq = (now self.now).update_seq } }
        requires next { seat.call ≡ calls_of (now self.now) seat.session + 1 }
        requires room { length self.now.entries < 4294967295 }
        ensures pushed { IfOk result (λ v. v ≡ extended self.now (entry_of (now self.now) seat Compact ∷ [])) }
    {
        let mut database = self.database.share()?;
        database.compact_with(seat, records)?;
        let history = self.history.push(Entry {
            seat,
            command: Command::compact(),
            reply: Reply::new(ReplyKind::Done),
        })?;
        Ok(Version {
            alloc: self.alloc,
            base: self.base.share()?,
            database,
            history,
        })
    }

    /// How many logged purges and updates lie above the marks; nothing where a purge above its mark
    /// is no longer in the log.
    pub fn touched_since(&self, update_mark: u64, purge_mark: u64) -> Option<u64>
        ensures { result ≡ (if is_overrun (now self.now).purges purge_mark then None
            else Some (length (touched (now self.now) (record { update = update_mark; purge = purge_mark })))) }
    {
        let log = self.database.purges();
        if log.is_overrun(purge_mark) {
            return None;
        }
        let purges = log.count_above(purge_mark);
        let updates = self.database.count_changed_since(update_mark);
        Some(purges + updates)
    }

    /// The number of entries, which is the place of the last.
    pub fn place(&self) -> u64
        ensures place { result ≡ length self.now.entries }
        ensures history { IsHistory self.now }
    {
        self.history.len()
    }

    /// The entry at a place, from 1.
    pub fn entry(&self, place: u64) -> Option<&Entry>
        ensures { option_copied result ≡ entry_at self.now.entries place }
    {
        self.history.get(place.checked_sub(1)?)
    }

    /// The number that the session's next command takes.
    pub fn next_call(&self, session: u16) -> u64
        ensures { result ≡ calls_of (now self.now) session + 1 }
    {
        self.database.calls_of(session) + 1
    }
}

/// Does the command, and puts its entry last.
fn apply_to(
    alloc: Global,
    database: &mut Database,
    history: &mut SharedList<Entry>,
    seat: Seat,
    command: &Command,
) -> Result<(), AllocError>
    requires next { seat.call ≡ calls_of database.old seat.session + 1 }
    requires room { database.old.update_seq + max_edits < u64.MAX }
    requires log_room { database.old.purges.purge_seq + max_edits < u64.MAX }
    ensures after { IfOk result (λ _. database.new ≡ act database.old seat command.now) }
    ensures pushed { IfOk result (λ _. history.new.values ≡ history.old.values ++ entry_of database.old seat command.now ∷ []) }
    ensures limits { IfOk result (λ _. IsSeat seat × IsCommand command.now) }
{
    let reply = database.act(seat, command)?;
    let command = command.copy(alloc)?;
    *history = history.push(Entry {
        seat,
        command,
        reply,
    })?;
    Ok(())
}
