//! Requests.
ghost use Rattle.std.specs.Prelude.{◌≡◌, IfOk, string_bytes};
ghost use Rattle.http_client.specs.Request.{request_head, request_text};

use std::alloc::{AllocError, Global};

/// A request of this method to this host for this target, with this body.
pub fn request_text(
    alloc: Global,
    host: &str,
    method: &str,
    target: &str,
    body: &str,
) -> Result<String, AllocError>
    ensures text { IfOk result (λ text. string_bytes text
        ≡ request_text host.now method.now target.now body.now) }
{
    let len = body.len();
    format!(in alloc;
        "{method} {target} HTTP/1.1\r\nHost: {host}\r\nAccept: application/json\r\nContent-Length: {len}\r\n\r\n{body}"
    )
}

/// The head of a request of this method to this host for this target, behind which a body of so many bytes comes.
pub fn request_head(
    alloc: Global,
    host: &str,
    method: &str,
    target: &str,
    len: usize,
) -> Result<String, AllocError>
    ensures head { IfOk result (λ head. string_bytes head
        ≡ request_head host.now method.now target.now len) }
{
    format!(in alloc;
        "{method} {target} HTTP/1.1\r\nHost: {host}\r\nAccept: application/json\r\nContent-Length: {len}\r\n\r\n"
    )
}
