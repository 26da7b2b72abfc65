//! Commands, and what their replies say.
ghost use Rattle.std.specs.Prelude.{◌≡◌, ◌≢◌, ◌⊎◌, ◌<◌, ◌≤◌, length, is_ok, Some, Err, IfOk};
ghost use Rattle.std.specs.List.{list_all};
ghost use Rattle.model.specs.Command.{Merges, max_edits};
ghost use Rattle.replicator.specs.declared.fault.PeerFault.TheVariants as fault;
ghost use Rattle.session_peer.specs.Checkpoints.{past_numbers};
ghost use Rattle.session_peer.specs.Commands.{are_taken, counter_in, put_checkpoint};

use crate::checkpoints::checkpoint_body;
use commands::{Command, Copied, Merge, Reply, ReplyKind};
use document_id::DocId;
use model::Refusal;
use replicator::PeerFault;
use revision_id::RevId;
use std::alloc::{AllocError, Global};
use std::sync::Arc;

/// The command that grafts documents.
///
/// # Errors
///
/// [`PeerFault::Refused`] where they are more than a command may have.
pub(crate) fn bulk_of(alloc: Global, documents: &[Merge]) -> Result<Command, PeerFault>
    ensures command { IfOk result (λ command. command ≡ Merges documents.now) }
    ensures many { result ≡ Err fault.Refused → max_edits < length documents.now }
    ensures others { (result ≢ Err fault.Failed) × (result ≢ Err fault.Unreadable) }
{
    let merges = copies(alloc, documents)?;
    match Command::merges(merges) {
        Some(command) => Ok(command),
        None => Err(PeerFault::Refused),
    }
}

fn copies(alloc: Global, documents: &[Merge]) -> Result<Vec<Merge>, AllocError>
    ensures { IfOk result (λ copies. copies.items ≡ documents.now) }
{
    let mut copies = Vec::with_capacity(alloc, documents.len())?;
    for document in documents {
        copies.push(document.copy(alloc)?)?;
    }
    Ok(copies)
}

/// The command that writes a checkpoint.
///
/// # Errors
///
/// [`PeerFault::Refused`] where it names the revision number 0, or a number past those of a body.
///
pub(crate) fn put_of(
    alloc: Global,
    id: &DocId,
    named: Option<u32>,
    last_seq: u64,
) -> Result<Command, PeerFault>
    ensures command { IfOk result (λ command. command ≡ put_checkpoint id.now named last_seq) }
    ensures none { result ≡ Err fault.Refused → (named ≡ Some 0) ⊎ (past_numbers ≤ last_seq) }
    ensures others { (result ≢ Err fault.Failed) × (result ≢ Err fault.Unreadable) }
{
    let body = checkpoint_body(alloc, last_seq)?;
    let Ok(body) = Arc::new(alloc, body) else {
        return Err(PeerFault::Memory);
    };
    match Command::put_local(id.share()?, named, Some(body)) {
        Some(command) => Ok(command),
        None => Err(PeerFault::Refused),
    }
}

/// Whether each merge was taken.
pub(crate) fn are_taken(reply: &Reply) -> bool
    ensures { result ≡ are_taken reply.now }
{
    match reply.kind() {
        ReplyKind::Wrote(replies) => are_ok(replies.as_slice()),
        _ => false,
    }
}

fn are_ok(replies: &[Result<RevId, Refusal>]) -> bool
    ensures { result ≡ list_all is_ok replies.now }
{
    replies.iter().all(Result::is_ok)
}

/// The number of the local document's revision that was written.
pub(crate) fn counter_in(reply: &Reply) -> Option<u32>
    ensures { result ≡ counter_in reply.now }
{
    match reply.kind() {
        ReplyKind::WroteLocal(written) => written.ok(),
        _ => None,
    }
}
