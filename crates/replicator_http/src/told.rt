//! What a response means as the answer to a call.
ghost use Rattle.std.specs.Prelude.{◌≡◌, ◌≢◌};
ghost use Rattle.document_json.specs.Steps.{Checked, Decides};
ghost use Rattle.replicator.specs.Call.{OnlyReads};
ghost use Rattle.replicator.specs.declared.fault.PeerFault.TheVariants.{Refused};
ghost use Rattle.replicator_http.specs.Told.{Answers, bulk_told, checkpoint_told, counter_told, differences_told, fault_by, is_conflict, is_missing, is_taken, none_refused, opened_told, page_told, readable};

use crate::answers::{
    read_all_taken, read_changes, read_checkpoint, read_differences, read_opened,
    read_written_counter,
};
use document_json::Fault;
use queries::{ChangesPage, Differences};
use replicator::{Checkpoint, Opened, PeerFault};
use std::alloc::Global;

/// Whether a status says that the call was carried out.
fn is_taken(status: u16) -> bool
    ensures { result ≡ is_taken status }
{
    status == 200 || status == 201
}

/// Why a status that isn't taken leaves a call without an answer.
fn fault_by(status: u16) -> PeerFault
    ensures fault { result ≡ fault_by status }
    ensures reads { result ≢ Refused }
{
    if status == 503 {
        return PeerFault::Failed;
    }
    PeerFault::Unreadable
}

/// What was read, as a peer answers it.
fn readable<T>(read: Result<T, Fault>) -> Result<T, PeerFault>
    ensures told { (checked : Checked T) → Decides read checked → Answers result (readable checked) }
    ensures reads { OnlyReads result }
{
    match read {
        Ok(found) => Ok(found),
        Err(Fault::Refused(_)) => Err(PeerFault::Unreadable),
        Err(Fault::Memory) => Err(PeerFault::Memory),
    }
}

/// The changes that a response reports.
pub(crate) fn page_told(alloc: Global, status: u16, body: &[u8]) -> Result<ChangesPage, PeerFault>
    ensures told { Answers result (page_told (record { status = status; body = body.now })) }
    ensures reads { OnlyReads result }
{
    if !is_taken(status) {
        return Err(fault_by(status));
    }
    readable(read_changes(alloc, body))
}

/// What is not known, as a response reports.
pub(crate) fn differences_told(
    alloc: Global,
    status: u16,
    body: &[u8],
) -> Result<Differences, PeerFault>
    ensures told { Answers result
        (differences_told (record { status = status; body = body.now })) }
    ensures reads { OnlyReads result }
{
    if !is_taken(status) {
        return Err(fault_by(status));
    }
    readable(read_differences(alloc, body))
}

/// The revisions that a response reports.
pub(crate) fn opened_told(alloc: Global, status: u16, body: &[u8]) -> Result<Opened, PeerFault>
    ensures told { Answers result (opened_told (record { status = status; body = body.now })) }
    ensures reads { OnlyReads result }
{
    if !is_taken(status) {
        return Err(fault_by(status));
    }
    match read_opened(alloc, body) {
        Ok(revisions) => Ok(Opened { revisions }),
        Err(Fault::Refused(_)) => Err(PeerFault::Unreadable),
        Err(Fault::Memory) => Err(PeerFault::Memory),
    }
}

/// That all documents of a bulk were taken, as a response reports.
pub(crate) fn bulk_told(alloc: Global, status: u16, body: &[u8]) -> Result<(), PeerFault>
    ensures told { Answers result (bulk_told (record { status = status; body = body.now })) }
{
    if !is_taken(status) {
        return Err(fault_by(status));
    }
    match readable(read_all_taken(alloc, body)) {
        Ok(true) => Ok(()),
        Ok(false) => Err(PeerFault::Refused),
        Err(fault) => Err(fault),
    }
}

/// The checkpoint that a response reports, if there is one.
pub(crate) fn checkpoint_told(
    alloc: Global,
    status: u16,
    body: &[u8],
) -> Result<Option<Checkpoint>, PeerFault>
    ensures told { Answers result
        (checkpoint_told (record { status = status; body = body.now })) }
    ensures reads { OnlyReads result }
{
    if status == 404 {
        return Ok(None);
    }
    if !is_taken(status) {
        return Err(fault_by(status));
    }
    match readable(read_checkpoint(alloc, body)) {
        Ok((counter, last_seq)) => Ok(Some(Checkpoint { counter, last_seq })),
        Err(fault) => Err(fault),
    }
}

/// The number of the checkpoint's revision that a response reports.
pub(crate) fn counter_told(alloc: Global, status: u16, body: &[u8]) -> Result<u32, PeerFault>
    ensures told { Answers result (counter_told (record { status = status; body = body.now })) }
{
    if status == 409 {
        return Err(PeerFault::Refused);
    }
    if !is_taken(status) {
        return Err(fault_by(status));
    }
    readable(read_written_counter(alloc, body))
}
