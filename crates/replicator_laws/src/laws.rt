//! What holds of the requests of a replication at the server that they go to.
ghost use Rattle.std.specs.Prelude.{ℕ, ◌≤◌, List, [], length};
ghost use Rattle.http_framing.specs.Body.{body_limit};
ghost use Rattle.http_framing.specs.Request.{BeginsWithRequest};
ghost use Rattle.http_client.specs.Request.{request_text};
ghost use Rattle.replicator_http.specs.Connection.{Terms};
ghost use Rattle.replicator_http.specs.Goes.{request_of};
ghost use Rattle.replicator.specs.Call.{Call};
ghost use Rattle.replicator_laws.specs.Calls.{CanBeTaken, IsTakenAs, asked_by};
ghost use Rattle.replicator_laws.specs.Framing.{IsHost, IsMethod, IsTarget, request_with};

use http_client::laws::segment_bytes;

/// The text of a request is one request to a server, with this method, target and body, whatever host it
/// names, after which the connection stays open.
pub fn one_request()
    ensures { (host method target body : List ℕ) → IsHost host → IsMethod method → IsTarget target → length body ≤ body_limit
        → BeginsWithRequest (request_text host method target body) (request_with method target body) [] }
{}

/// A server takes the request of each call as that call, whatever host it names, and whether it skips documents or not.
pub fn calls_are_taken()
    ensures { (terms : Terms) (call : Call) → IsHost terms.host → CanBeTaken call → IsTakenAs (request_of terms call) (asked_by terms call) }
{
    segment_bytes();
}
