//! Which revisions the other database lacks.
ghost use Rattle.std.specs.Prelude.{◌≡◌, IfOk, string_bytes};
ghost use Rattle.replicator_http.specs.Requests.{diff_request};

use api_json::append_named_revisions;
use commands::NamedRevisions;
use http_client::request_text;
use std::alloc::{AllocError, Global};

/// Asks which of these revisions are not known.
pub fn diff_request(alloc: Global, host: &str, asked: &NamedRevisions) -> Result<String, AllocError>
    ensures request { IfOk result (λ text. string_bytes text ≡ diff_request host.now asked.now) }
{
    let body = append_named_revisions(alloc, String::new(alloc), asked.documents())?;
    request_text(alloc, host, "POST", "/db/_revs_diff", body.as_str())
}
