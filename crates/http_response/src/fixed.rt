//! Responses that say nothing of the database.
ghost use Rattle.std.specs.Prelude.{◌≡◌};
ghost use Rattle.http_response.specs.Problem.{refusal_allow, refusal_body, refusal_status};
ghost use Rattle.http_response.specs.Texts.{refusal_text, welcome_text};

use crate::body::BodyText;
use crate::connection::Connection;
use crate::head::Allow;
use crate::problem::body_of_absent;
use crate::response::Response;
use crate::status::StatusCode;
use document_json::Reason;
use http_request::{Extent, Rejection};
use model::Absent;

/// The response to a request that is refused, as far as it takes that.
#[tactic(auto, unfolding(crate::specs::Texts::refusal_text))]
pub fn refused(place: u64, connection: Connection, extent: Extent, refusal: Rejection) -> Response
    ensures text { result ≡ refusal_text place connection extent refusal }
{
    let status = status_of(refusal);
    let allow = allow_of(refusal);
    let body = BodyText::Fixed(body_of(refusal));
    Response::new(status, place, allow, connection, extent, body)
}

fn status_of(refusal: Rejection) -> StatusCode
    ensures { result ≡ refusal_status refusal }
{
    match refusal {
        Rejection::Missing => StatusCode::NotFound,
        Rejection::MethodNotAllowed(_) => StatusCode::MethodNotAllowed,
        Rejection::BadRequest(_) => StatusCode::BadRequest,
    }
}

fn allow_of(refusal: Rejection) -> Allow
    ensures { result ≡ refusal_allow refusal }
{
    match refusal {
        Rejection::MethodNotAllowed(route) => Allow::Methods(route),
        Rejection::Missing | Rejection::BadRequest(_) => Allow::Unsaid,
    }
}

fn body_of(refusal: Rejection) -> &'static str
    ensures { result.now ≡ refusal_body refusal }
{
    match refusal {
        Rejection::Missing => body_of_absent(Absent::IsMissing),
        Rejection::MethodNotAllowed(_) => {
            r#"{"error":"method_not_allowed","reason":"Method not allowed."}"#
        }
        Rejection::BadRequest(reason) => bad_request(reason),
    }
}

fn bad_request(reason: Reason) -> &'static str
    ensures { result.now ≡ refusal_body (Rejection.BadRequest reason) }
{
    match reason {
        Reason::Id => r#"{"error":"bad_request","reason":"id"}"#,
        Reason::Parameter => r#"{"error":"bad_request","reason":"parameter"}"#,
        Reason::Revision => r#"{"error":"bad_request","reason":"revision"}"#,
        Reason::Json => r#"{"error":"bad_request","reason":"json"}"#,
        Reason::Number => r#"{"error":"bad_request","reason":"number"}"#,
        Reason::Depth => r#"{"error":"bad_request","reason":"depth"}"#,
        Reason::Shape => r#"{"error":"bad_request","reason":"shape"}"#,
        Reason::Member => r#"{"error":"bad_request","reason":"member"}"#,
    }
}

/// The response to `GET /`.
#[tactic(auto, unfolding(crate::specs::Texts::welcome_text))]
pub fn welcome(place: u64, connection: Connection) -> Response
    ensures text { result ≡ welcome_text place connection }
{
    let body = BodyText::Fixed(r#"{"couchdb":"Welcome"}"#);
    Response::plain(StatusCode::Ok, place, connection, body)
}
