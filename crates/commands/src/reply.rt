//! Replies to commands.
ghost use Rattle.std.specs.Prelude.{◌≡◌, ◌↔◌, IsTrue, IfOk};
ghost use Rattle.commands.specs.Reply.{reply_of};

use crate::copied::Copied;
use crate::named::NamedRevisions;
use crate::same::{Same, are_same};
use crate::short_list::ShortList;
use model::Refusal;
use revision_id::RevId;
use std::alloc::{AllocError, Global};
use std::marker::Model;

/// What a command is answered, by its kind.
#[derive(Drop)]
pub enum ReplyKind {
    /// Of each edit or merge its revision.
    Wrote(ShortList<Result<RevId, Refusal>>),
    /// The number of the local document's revision, 0 for a deletion.
    WroteLocal(Result<u32, Refusal>),
    /// The last purge number, and of each document named the leaves removed.
    Purged {
        purge_seq: u64,
        removed: NamedRevisions,
    },
    Done,
}

/// What a command is answered.
pub struct Reply {
    kind: ReplyKind,
}

impl Drop for Reply {
    fn drop(self) {
        let Reply { kind: _ } = self;
    }
}

impl Model for Reply {
    ghost use Rattle.model.specs.Command.{Reply};

    ghost Value = { Reply };

    ghost use Rattle.commands.specs.Reply.{reply_of};

    ghost view = { λ r. reply_of r.kind };
}

impl Reply {
    /// The reply of a kind.
    pub fn new(kind: ReplyKind) -> Reply
        ensures reply { result ≡ reply_of kind }
    {
        Reply { kind }
    }

    /// What is replied.
    pub fn kind(&self) -> &ReplyKind
        ensures kind { reply_of result.now ≡ self.now }
    {
        &self.kind
    }

    /// Whether the two are one reply. Takes no memory.
    pub fn is_same(&self, other: &Reply) -> bool
        ensures same { IsTrue result ↔ (self.now ≡ other.now) }
    {
        is_same_kind(&self.kind, &other.kind)
    }
}

impl Copied for Result<RevId, Refusal> {
    fn copy(&self, _alloc: Global) -> Result<Result<RevId, Refusal>, AllocError> {
        Ok(*self)
    }
}

impl Copied for Reply {
    fn copy(&self, alloc: Global) -> Result<Reply, AllocError> {
        let kind = match &self.kind {
            ReplyKind::Wrote(writes) => ReplyKind::Wrote(writes.copy(alloc)?),
            ReplyKind::WroteLocal(write) => ReplyKind::WroteLocal(*write),
            ReplyKind::Purged { purge_seq, removed } => ReplyKind::Purged {
                purge_seq: *purge_seq,
                removed: removed.copy(alloc)?,
            },
            ReplyKind::Done => ReplyKind::Done,
        };
        Ok(Reply { kind })
    }
}

/// Whether the two are of one kind and say the same.
fn is_same_kind(one: &ReplyKind, other: &ReplyKind) -> bool
    ensures same { IsTrue result ↔ (reply_of one.now ≡ reply_of other.now) }
{
    match (one, other) {
        (ReplyKind::Wrote(one), ReplyKind::Wrote(other)) => {
            are_same(one.as_slice(), other.as_slice())
        }
        (ReplyKind::WroteLocal(one), ReplyKind::WroteLocal(other)) => one == other,
        (
            ReplyKind::Purged { purge_seq, removed },
            ReplyKind::Purged {
                purge_seq: other_seq,
                removed: other_removed,
            },
        ) => purge_seq == other_seq && removed.is_same(other_removed),
        (ReplyKind::Done, ReplyKind::Done) => true,
        _ => false,
    }
}
