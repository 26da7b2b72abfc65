//! What the server writes by itself.
ghost use Rattle.std.specs.Prelude.{◌≡◌, ◌++◌};
ghost use Rattle.streams.specs.Counts.{CountsFailure};
ghost use Rattle.streams.specs.Writes.{Writes};
ghost use Rattle.origin_policy.specs.Answers.{forbidden_body, forbidden_front, forbidden_head, forbidden_text, preflight_front, preflight_text, reason_body};

use crate::judging::Forbidden;
use streams::{Failed, Sink, write_all};

/// The line that says which origin may read an answer, up to the origin.
pub const ALLOW: &[u8] = b"Access-Control-Allow-Origin: ";

/// What follows the origin: that its page may read an answer with its users, and the place in it, and that caches keep it for
/// this origin alone.
pub const ALLOWED: &[u8] =
    b"\r\nAccess-Control-Allow-Credentials: true\r\nAccess-Control-Expose-Headers: Couch-Place\r\nVary: Origin\r\n";

/// What follows the origin in the answer of a preflight: which requests its page may make, and that it need not ask again for ten
/// minutes.
const ALLOWED_REQUESTS: &[u8] =
    b"\r\nAccess-Control-Allow-Credentials: true\r\nAccess-Control-Allow-Methods: GET, PUT, POST, DELETE\r\nAccess-Control-Allow-Headers: accept, authorization, content-type, origin, referer\r\nAccess-Control-Max-Age: 600\r\nVary: Origin\r\n\r\n";

/// Writes the answer of a preflight of a page of this origin, after which the connection closes where that is said.
///
/// # Errors
///
/// A write failed. A beginning of the answer, not all, may have been written.
pub fn write_preflight<W: Sink>(writer: &mut W, origin: &[u8], closes: bool) -> Result<(), Failed>
    ensures written { Writes (W.taken writer.old) (W.taken writer.new) result
        (preflight_text origin.now closes) }
    ensures failures { CountsFailure (W.failed_writes writer.old)
        (W.failed_writes writer.new) result }
{
    writer.begins();
    let front = preflight_front(closes);
    write_three(writer, front, origin, ALLOWED_REQUESTS)
}

/// Writes the answer of a request of this method that is refused, after which the connection closes where that is said. To HEAD it ends
/// with its head.
///
/// # Errors
///
/// A write failed. A beginning of the answer, not all, may have been written.
#[tactic(auto, unfolding(crate::specs::Answers::forbidden_text))]
pub fn write_forbidden<W: Sink>(
    writer: &mut W,
    reason: Forbidden,
    method: &[u8],
    closes: bool,
) -> Result<(), Failed>
    ensures written { Writes (W.taken writer.old) (W.taken writer.new) result
        (forbidden_text reason method.now closes) }
    ensures failures { CountsFailure (W.failed_writes writer.old)
        (W.failed_writes writer.new) result }
{
    writer.begins();
    let front = forbidden_front(closes);
    write_three(
        writer,
        front,
        forbidden_head(reason),
        forbidden_body(reason, method),
    )
}

/// Writes three texts, one after the other.
fn write_three<W: Sink>(
    writer: &mut W,
    first: &[u8],
    second: &[u8],
    third: &[u8],
) -> Result<(), Failed>
    ensures written { Writes (W.taken writer.old) (W.taken writer.new) result
        (first.now ++ (second.now ++ third.now)) }
    ensures failures { CountsFailure (W.failed_writes writer.old)
        (W.failed_writes writer.new) result }
{
    write_all(writer, first)?;
    write_two(writer, second, third)
}

/// Writes two texts, one after the other.
fn write_two<W: Sink>(writer: &mut W, first: &[u8], second: &[u8]) -> Result<(), Failed>
    ensures written { Writes (W.taken writer.old) (W.taken writer.new) result
        (first.now ++ second.now) }
    ensures failures { CountsFailure (W.failed_writes writer.old)
        (W.failed_writes writer.new) result }
{
    write_all(writer, first)?;
    write_all(writer, second)
}

/// The answer of a preflight, up to the origin.
fn preflight_front(closes: bool) -> &'static [u8]
    ensures { result.now ≡ preflight_front closes }
{
    if closes {
        return b"HTTP/1.1 204 No Content\r\nConnection: close\r\nAccess-Control-Allow-Origin: ";
    }
    b"HTTP/1.1 204 No Content\r\nAccess-Control-Allow-Origin: "
}

/// The first lines of the answer of a request that is refused.
fn forbidden_front(closes: bool) -> &'static [u8]
    ensures { result.now ≡ forbidden_front closes }
{
    if closes {
        return b"HTTP/1.1 403 Forbidden\r\nConnection: close\r\n";
    }
    b"HTTP/1.1 403 Forbidden\r\n"
}

/// The other lines of its head.
fn forbidden_head(reason: Forbidden) -> &'static [u8]
    ensures { result.now ≡ forbidden_head reason }
{
    match reason {
        Forbidden::Origin => b"Content-Type: application/json\r\nContent-Length: 39\r\n\r\n",
        Forbidden::Site | Forbidden::Host =>
            b"Content-Type: application/json\r\nContent-Length: 37\r\n\r\n",
    }
}

/// What follows its head.
fn forbidden_body(reason: Forbidden, method: &[u8]) -> &'static [u8]
    ensures { result.now ≡ forbidden_body reason method.now }
{
    if method == b"HEAD".as_slice() {
        return b"";
    }
    reason_body(reason)
}

/// The body where it isn't left out.
fn reason_body(reason: Forbidden) -> &'static [u8]
    ensures { result.now ≡ reason_body reason }
{
    match reason {
        Forbidden::Origin => b"{\"error\":\"forbidden\",\"reason\":\"origin\"}",
        Forbidden::Site => b"{\"error\":\"forbidden\",\"reason\":\"site\"}",
        Forbidden::Host => b"{\"error\":\"forbidden\",\"reason\":\"host\"}",
    }
}
