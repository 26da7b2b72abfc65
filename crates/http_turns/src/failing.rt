//! Calls that have no answer.
ghost use Rattle.std.specs.Prelude.{length};
ghost use Rattle.http_turns.specs.Sent.{SaysFault};

use crate::response::{Sent, connection_after};
use http_request::Extent;
use http_response::{MemoryFor, service_unavailable};
use session_api::{CallFault, Viewer};

/// Says why a call has no answer.
pub(crate) fn fail<S: Viewer>(session: &S, fault: CallFault, closes: bool) -> Sent
    ensures { SaysFault (length (S.known session.now).seen) closes fault result }
{
    let place = session.place();
    match fault {
        CallFault::Memory => Sent::no_memory(place, Extent::Whole, MemoryFor::Call),
        CallFault::Unavailable(why) => Sent {
            response: service_unavailable(place, connection_after(closes), why),
            closes,
        },
    }
}
