//! Why a write or a query was refused, as a body reports it.
ghost use Rattle.std.specs.Prelude.{◌≡◌};
ghost use Rattle.http_response.specs.Problem.{absent_problem, write_problem, write_status};

use crate::status::StatusCode;
use model::{Absent, Refusal};

/// The status of a refused write.
pub(crate) fn status_of(refusal: Refusal) -> StatusCode
    ensures { result ≡ write_status refusal }
{
    match refusal {
        Refusal::Missing | Refusal::Deleted => StatusCode::NotFound,
        Refusal::Conflict | Refusal::BadHistory | Refusal::GenerationLimit => {
            StatusCode::Conflict
        }
    }
}

/// The body that reports a refused write.
pub(crate) fn body_of_refusal(refusal: Refusal) -> &'static str
    ensures { result.now ≡ write_problem refusal }
{
    match refusal {
        Refusal::Conflict => r#"{"error":"conflict","reason":"Document update conflict."}"#,
        Refusal::BadHistory => {
            r#"{"error":"bad_history","reason":"A known revision has another parent."}"#
        }
        Refusal::Missing => r#"{"error":"not_found","reason":"missing"}"#,
        Refusal::Deleted => r#"{"error":"not_found","reason":"deleted"}"#,
        Refusal::GenerationLimit => {
            r#"{"error":"generation","reason":"The generation limit is reached."}"#
        }
    }
}

/// The body that says that a document is not found.
pub(crate) fn body_of_absent(absent: Absent) -> &'static str
    ensures { result.now ≡ absent_problem absent }
{
    match absent {
        Absent::IsMissing => r#"{"error":"not_found","reason":"missing"}"#,
        Absent::WasDeleted => r#"{"error":"not_found","reason":"deleted"}"#,
    }
}
