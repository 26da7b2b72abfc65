//! Commands: what a session asks to be done.
ghost use Rattle.std.specs.Prelude.{◌≡◌, ◌↔◌, ◌≤◌, ◌<◌, [], ◌∷◌, length, Some, IsTrue, IsSome, IfSome, IfOk, option_map};
ghost use Rattle.std.specs.Arc.{arc_value};
ghost use Rattle.model.specs.Command as model;
ghost use Rattle.model.specs.Map.{entries};
ghost use Rattle.model.specs.World.{is_compact};
ghost use Rattle.commands.specs.Command.{command_of};

use crate::copied::{Copied, copy_all};
use crate::edit::{Edit, recall_all_limits};
use crate::merge::{Merge, recall_all_merges};
use crate::named::{NamedRevisions, recall_all_named};
use crate::same::{Same, are_same, is_same_id, is_same_option};
use crate::short_list::ShortList;
use document_id::DocId;
use json_profile::Body;
use std::alloc::{AllocError, Global};
use std::marker::Model;
use std::sync::Arc;

/// The most edits or merges of a command, and the most documents of a purge.
pub const MAX_EDITS: usize = 1_048_576;

/// What is asked, by its kind.
#[derive(Drop)]
pub enum CommandKind {
    /// Edits, one after another.
    Edits(ShortList<Edit>),
    /// Revisions from another replica, one after another.
    Merges(Vec<Merge>),
    /// A write of a local document over the revision number that it names, with no body for a
    /// deletion.
    PutLocal {
        id: DocId,
        named: Option<u32>,
        body: Option<Arc<Body>>,
    },
    /// Leaves to be removed for good.
    Purge(NamedRevisions),
    /// How many revisions are kept above a leaf, itself among them.
    SetLimit(u32),
    /// How many purges the log keeps.
    SetPurgedLimit(u32),
    /// Each record stripped.
    Compact,
}

/// What a session asks to be done, within the limits.
pub struct Command {
    kind: CommandKind,
}

impl Drop for Command {
    fn drop(self) {
        let Command { kind: _ } = self;
    }
}

impl Model for Command {
    ghost use Rattle.model.specs.Command.{Command, IsCommand};
    ghost use Rattle.std.specs.Coded.{codes};
    ghost use Rattle.model.specs.JsonCode.{coded_members};

    ghost Value = { Command };

    ghost coded = { Prim.hlevel (codes, coded_members) };

    ghost use Rattle.commands.specs.Command.{command_of};

    ghost view = { λ c. command_of c.kind };

    ghost invariant = { λ c. IsCommand (command_of c.kind) };
}

impl Command {
    /// An edit.
    pub fn edit(edit: Edit) -> Command
        ensures command { result ≡ model.Edits (edit ∷ []) }
    {
        edit.recall_limits();
        Command {
            kind: CommandKind::Edits(ShortList::one(edit)),
        }
    }

    /// Edits, at most [`MAX_EDITS`] of them.
    pub fn edits(edits: Vec<Edit>) -> Option<Command>
        ensures few { IsSome result ↔ (length edits.items ≤ model.max_edits) }
        ensures command { IfSome result (λ command. command ≡ model.Edits edits.items) }
    {
        if edits.len() > MAX_EDITS {
            return None;
        }
        recall_all_limits(&edits);
        Some(Command {
            kind: CommandKind::Edits(ShortList::from_vec(edits)),
        })
    }

    /// Merges, at most [`MAX_EDITS`] of them.
    pub fn merges(merges: Vec<Merge>) -> Option<Command>
        ensures few { IsSome result ↔ (length merges.items ≤ model.max_edits) }
        ensures command { IfSome result (λ command. command ≡ model.Merges merges.items) }
    {
        if merges.len() > MAX_EDITS {
            return None;
        }
        recall_all_merges(&merges);
        Some(Command {
            kind: CommandKind::Merges(merges),
        })
    }

    /// A write of a local document, or with no body its deletion. A revision number that is named
    /// is from 1.
    pub fn put_local(id: DocId, named: Option<u32>, body: Option<Arc<Body>>) -> Option<Command>
        ensures counter { IsSome result ↔ IfSome named model.IsCounter }
        ensures command { IfSome result (λ command. command ≡ model.PutLocal id named (option_map arc_value body)) }
    {
        if named == Some(0) {
            return None;
        }
        let _recalled = id.as_str();
        if let Some(body) = &body {
            let _recalled = body.text();
        }
        Some(Command {
            kind: CommandKind::PutLocal { id, named, body },
        })
    }

    /// A purge of at most [`MAX_EDITS`] documents.
    pub fn purge(named: NamedRevisions) -> Option<Command>
        ensures few { IsSome result ↔ (length (entries named) ≤ model.max_edits) }
        ensures command { IfSome result (λ command. command ≡ model.Purge named) }
    {
        if named.documents().len() > MAX_EDITS {
            return None;
        }
        recall_all_named(named.documents());
        Some(Command {
            kind: CommandKind::Purge(named),
        })
    }

    /// A compaction.
    pub fn compact() -> Command
        ensures { result ≡ model.Compact }
    {
        Command {
            kind: CommandKind::Compact,
        }
    }

    /// The limit of revisions, from 1.
    pub fn set_limit(limit: u32) -> Option<Command>
        ensures in_range { IsSome result ↔ model.IsLimit limit }
        ensures command { IfSome result (λ command. command ≡ model.SetLimit limit) }
    {
        if limit == 0 {
            return None;
        }
        Some(Command {
            kind: CommandKind::SetLimit(limit),
        })
    }

    /// The limit of the purge log, from 1.
    pub fn set_purged_limit(limit: u32) -> Option<Command>
        ensures in_range { IsSome result ↔ model.IsLimit limit }
        ensures command { IfSome result (λ command. command ≡ model.SetPurgedLimit limit) }
    {
        if limit == 0 {
            return None;
        }
        Some(Command {
            kind: CommandKind::SetPurgedLimit(limit),
        })
    }

    /// What is asked, by its kind.
    pub fn kind(&self) -> &CommandKind
        ensures kind { command_of result.now ≡ self.now }
        ensures is_command { model.IsCommand self.now }
    {
        &self.kind
    }

    /// Whether it is a compaction, for which sessions have a call of its own.
    pub fn is_compaction(&self) -> bool
        ensures { result ≡ is_compact self.now }
    {
        matches!(self.kind, CommandKind::Compact)
    }

    /// Whether the two are one command. Takes no memory.
    pub fn is_same(&self, other: &Command) -> bool
        ensures same { IsTrue result ↔ (self.now ≡ other.now) }
    {
        is_same_kind(&self.kind, &other.kind)
    }
}

impl Copied for Command {
    fn copy(&self, alloc: Global) -> Result<Command, AllocError> {
        let kind = match &self.kind {
            CommandKind::Edits(edits) => CommandKind::Edits(edits.copy(alloc)?),
            CommandKind::Merges(merges) => CommandKind::Merges(copy_all(alloc, merges)?),
            CommandKind::PutLocal { id, named, body } => CommandKind::PutLocal {
                id: id.share()?,
                named: *named,
                body: share_body(body)?,
            },
            CommandKind::Purge(named) => CommandKind::Purge(named.copy(alloc)?),
            CommandKind::SetLimit(limit) => CommandKind::SetLimit(*limit),
            CommandKind::SetPurgedLimit(limit) => CommandKind::SetPurgedLimit(*limit),
            CommandKind::Compact => CommandKind::Compact,
        };
        Ok(Command { kind })
    }
}

/// One more owner of the body, if there is one.
fn share_body(body: &Option<Arc<Body>>) -> Result<Option<Arc<Body>>, AllocError>
    ensures same { IfOk result (λ shared. option_map arc_value shared ≡ option_map arc_value body.now) }
{
    match body {
        Some(body) => Ok(Some(body.clone()?)),
        None => Ok(None),
    }
}

/// Whether the two are of one kind and ask for the same.
fn is_same_kind(one: &CommandKind, other: &CommandKind) -> bool
    ensures same { IsTrue result ↔ (command_of one.now ≡ command_of other.now) }
{
    match (one, other) {
        (CommandKind::Edits(one), CommandKind::Edits(other)) => {
            are_same(one.as_slice(), other.as_slice())
        }
        (CommandKind::Merges(one), CommandKind::Merges(other)) => are_same(one, other),
        (
            CommandKind::PutLocal { id, named, body },
            CommandKind::PutLocal {
                id: other_id,
                named: other_named,
                body: other_body,
            },
        ) => {
            is_same_id(id, other_id)
                && named == other_named
                && is_same_option(body.as_deref(), other_body.as_deref())
        }
        (CommandKind::Purge(one), CommandKind::Purge(other)) => one.is_same(other),
        (CommandKind::SetLimit(one), CommandKind::SetLimit(other)) => one == other,
        (CommandKind::SetPurgedLimit(one), CommandKind::SetPurgedLimit(other)) => one == other,
        (CommandKind::Compact, CommandKind::Compact) => true,
        _ => false,
    }
}
