//! What holds of every response, and of the bytes that targets escape.
ghost use Rattle.std.specs.Prelude.{◌≡◌, ℕ, List, ◌++◌, not};
ghost use Rattle.percent_encoding.specs.AsciiSet.{should_percent_encode};
ghost use Rattle.http_client.specs.Target.{is_unreserved};
ghost use Rattle.http_client.specs.Response.{BeginsWithResponse, HasManyHeaders, IsUnfinished, IsUnreadable, Response};

use crate::target::SEGMENT;

/// Bytes begin with one response at most, and bytes that begin with one are neither unfinished nor
/// unreadable. Bytes that are both of these have too many headers, in a head that they end in.
pub fn one_response()
    ensures same { (bytes : List ℕ) (response other : Response) (rest after : List ℕ)
        → BeginsWithResponse bytes response rest → BeginsWithResponse bytes other after
        → (response ≡ other) × (rest ≡ after) }
    ensures whole { (bytes : List ℕ) (response : Response) (rest : List ℕ)
        → IsUnfinished bytes → BeginsWithResponse bytes response rest → ⊥ }
    ensures readable { (bytes : List ℕ) (response : Response) (rest : List ℕ)
        → IsUnreadable bytes → BeginsWithResponse bytes response rest → ⊥ }
    ensures part { (bytes : List ℕ) → IsUnfinished bytes → IsUnreadable bytes
        → HasManyHeaders bytes }
{}

/// What begins with a response, or is unreadable, stays so when more bytes have come.
pub fn more_bytes()
    ensures response { (bytes more : List ℕ) (response : Response) (rest : List ℕ)
        → BeginsWithResponse bytes response rest
        → BeginsWithResponse (bytes ++ more) response (rest ++ more) }
    ensures unreadable { (bytes more : List ℕ) → IsUnreadable bytes
        → IsUnreadable (bytes ++ more) }
    ensures headers { (bytes more : List ℕ) → HasManyHeaders bytes
        → HasManyHeaders (bytes ++ more) }
{}

/// A path segment keeps its unreserved bytes, and has all others escaped.
pub fn segment_bytes()
    ensures { (byte : ℕ) → should_percent_encode SEGMENT byte ≡ not (is_unreserved byte) }
{}
