//! How a replication waits for changes.
ghost use Rattle.std.specs.Prelude.{◌≡◌, OnOk};
ghost use Rattle.replicator_http.specs.Asked.{fault_of};
ghost use Rattle.replicator_http.specs.Poll.{HasWaited};

use crate::requests::poll_request;
use document_id::DocIds;
use http_client::{Incoming, ResponseFault};
use replicator::PeerFault;
use std::alloc::Global;
use streams::{Sink, Source, write_all};

/// Asks a database at a host for a change after a number, of these documents or of all, and waits until a response has come: it
/// comes at the next change, or where the database waits no longer. The connection is for nothing else.
///
/// # Errors
///
/// [`PeerFault::Failed`] where a write or a read failed or the input ended before the response did,
/// [`PeerFault::Unreadable`] where what came is none, and [`PeerFault::Memory`].
pub fn wait_for_changes<R: Source, W: Sink>(
    alloc: Global,
    host: &str,
    reader: &mut R,
    writer: &mut W,
    ids: &Option<DocIds>,
    since: u64,
) -> Result<(), PeerFault>
    ensures waited { OnOk result (HasWaited host.now ids.now since (R.left reader.old) (R.left reader.new)
        (W.taken writer.old) (W.taken writer.new)) }
{
    let request = poll_request(alloc, host, ids, since)?;
    let Ok(()) = write_all(writer, request.as_str().as_bytes()) else {
        return Err(PeerFault::Failed);
    };
    let mut incoming = Incoming::new(alloc);
    match incoming.read_response(reader) {
        Ok(_) => Ok(()),
        Err(fault) => Err(fault_of(fault)),
    }
}

/// Why no response has come, as a peer answers it.
fn fault_of(fault: ResponseFault) -> PeerFault
    ensures { result ≡ fault_of fault }
{
    match fault {
        ResponseFault::Ended | ResponseFault::ReadFailed => PeerFault::Failed,
        ResponseFault::Unreadable => PeerFault::Unreadable,
        ResponseFault::Memory => PeerFault::Memory,
    }
}
