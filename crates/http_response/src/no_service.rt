//! The responses to calls that have no answer though memory was there, which take no memory.
ghost use Rattle.std.specs.Prelude.{◌≡◌};
ghost use Rattle.http_response.specs.Texts.{unavailable_body, unavailable_text};

use crate::body::BodyText;
use crate::connection::Connection;
use crate::response::Response;
use crate::status::StatusCode;
use session_api::Unavailable;

/// The response to a call that has no answer.
#[tactic(auto, unfolding(crate::specs::Texts::unavailable_text))]
pub fn service_unavailable(place: u64, connection: Connection, why: Unavailable) -> Response
    ensures text { result ≡ unavailable_text place connection why }
{
    let body = BodyText::Fixed(body_of(why));
    Response::plain(StatusCode::ServiceUnavailable, place, connection, body)
}

fn body_of(why: Unavailable) -> &'static str
    ensures { result.now ≡ unavailable_body why }
{
    match why {
        Unavailable::Busy => r#"{"error":"unavailable","reason":"busy"}"#,
        Unavailable::Lost => r#"{"error":"unavailable","reason":"lost"}"#,
        Unavailable::Full => r#"{"error":"unavailable","reason":"full"}"#,
        Unavailable::Behind => r#"{"error":"unavailable","reason":"behind"}"#,
        Unavailable::Overrun => r#"{"error":"unavailable","reason":"overrun"}"#,
        Unavailable::Entry => r#"{"error":"unavailable","reason":"entry"}"#,
        Unavailable::Journal => r#"{"error":"unavailable","reason":"journal"}"#,
    }
}
