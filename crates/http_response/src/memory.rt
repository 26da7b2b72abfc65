//! The responses of a server that is out of memory, which take none.
ghost use Rattle.std.specs.Prelude.{◌≡◌};
ghost use Rattle.http_response.specs.Texts.{no_memory_body, no_memory_text};

use crate::body::BodyText;
use crate::connection::Connection;
use crate::head::Allow;
use crate::response::Response;
use crate::status::StatusCode;
use http_request::Extent;

/// What memory was refused for.
#[derive(Clone, Copy, Debug, PartialEq, Eq)]
pub enum MemoryFor {
    /// A request, before it changed anything.
    Call,
    /// The text of the reply to a command that is in the history.
    Reply,
}

/// The response where memory was refused, as far as the request takes it, after which the connection
/// closes.
#[tactic(auto, unfolding(crate::specs::Texts::no_memory_text))]
pub fn no_memory(place: u64, extent: Extent, wanted: MemoryFor) -> Response
    ensures text { result ≡ no_memory_text place extent wanted }
{
    let body = BodyText::Fixed(body_of(wanted));
    Response::new(
        StatusCode::InsufficientStorage,
        place,
        Allow::Unsaid,
        Connection::Close,
        extent,
        body,
    )
}

fn body_of(wanted: MemoryFor) -> &'static str
    ensures { result.now ≡ no_memory_body wanted }
{
    match wanted {
        MemoryFor::Call => r#"{"error":"no_memory","reason":"call"}"#,
        MemoryFor::Reply => r#"{"error":"no_memory","reason":"reply"}"#,
    }
}
