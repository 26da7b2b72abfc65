//! The statuses of responses.
ghost use Rattle.std.specs.Prelude.{◌≡◌, ◌≤◌, length};
ghost use Rattle.http_response.specs.Response.{status_text};

/// The status of a response.
#[derive(Clone, Copy, Debug, PartialEq, Eq)]
pub(crate) enum StatusCode {
    Ok,
    Created,
    Accepted,
    BadRequest,
    NotFound,
    MethodNotAllowed,
    Conflict,
    LengthRequired,
    ContentTooLarge,
    RequestHeaderFieldsTooLarge,
    ServiceUnavailable,
    InsufficientStorage,
}

impl StatusCode {
    /// The code and its reason, as the status line writes them.
    pub(crate) fn text(self) -> &'static str
        ensures text { result.now ≡ status_text self }
        ensures short { length result.now ≤ 35 }
    {
        match self {
            StatusCode::Ok => "200 OK",
            StatusCode::Created => "201 Created",
            StatusCode::Accepted => "202 Accepted",
            StatusCode::BadRequest => "400 Bad Request",
            StatusCode::NotFound => "404 Not Found",
            StatusCode::MethodNotAllowed => "405 Method Not Allowed",
            StatusCode::Conflict => "409 Conflict",
            StatusCode::LengthRequired => "411 Length Required",
            StatusCode::ContentTooLarge => "413 Content Too Large",
            StatusCode::RequestHeaderFieldsTooLarge => "431 Request Header Fields Too Large",
            StatusCode::ServiceUnavailable => "503 Service Unavailable",
            StatusCode::InsufficientStorage => "507 Insufficient Storage",
        }
    }
}
