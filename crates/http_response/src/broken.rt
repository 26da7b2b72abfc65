//! The responses to bytes that are refused with all that follows them.
ghost use Rattle.std.specs.Prelude.{◌≡◌};
ghost use Rattle.http_response.specs.Problem.{closing_body, closing_status};
ghost use Rattle.http_response.specs.Texts.{closing_text};

use crate::body::BodyText;
use crate::connection::Connection;
use crate::response::Response;
use crate::status::StatusCode;
use http_framing::FramingFault;

/// The response to bytes that are refused, after which the connection closes.
#[tactic(auto, unfolding(crate::specs::Texts::closing_text))]
pub fn closing(place: u64, fault: FramingFault) -> Response
    ensures text { result ≡ closing_text place fault }
{
    let body = BodyText::Fixed(body_of(fault));
    Response::plain(status_of(fault), place, Connection::Close, body)
}

fn status_of(fault: FramingFault) -> StatusCode
    ensures { result ≡ closing_status fault }
{
    match fault {
        FramingFault::Head | FramingFault::ContentLength => StatusCode::BadRequest,
        FramingFault::LargeHead => StatusCode::RequestHeaderFieldsTooLarge,
        FramingFault::TransferEncoding => StatusCode::LengthRequired,
        FramingFault::LargeBody => StatusCode::ContentTooLarge,
    }
}

fn body_of(fault: FramingFault) -> &'static str
    ensures { result.now ≡ closing_body fault }
{
    match fault {
        FramingFault::Head => r#"{"error":"bad_request","reason":"head"}"#,
        FramingFault::LargeHead => r#"{"error":"too_large","reason":"head"}"#,
        FramingFault::TransferEncoding => {
            r#"{"error":"length_required","reason":"Chunked bodies are not taken."}"#
        }
        FramingFault::ContentLength => r#"{"error":"bad_request","reason":"length"}"#,
        FramingFault::LargeBody => r#"{"error":"too_large","reason":"body"}"#,
    }
}
