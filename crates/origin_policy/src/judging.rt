//! The decision on a request.
ghost use Rattle.std.specs.Prelude.{◌≡◌, ◌&&◌, ℕ, List, length, map, not, All, codes};
ghost use Rattle.std.specs.List.{list_any};
ghost use Rattle.std.specs.Str.{bytes_eq};
ghost use Rattle.httparse.specs.Grammar.{RequestHead};
ghost use Rattle.httparse.specs.Spans.{header_bytes, IsHeaderWithin};
ghost use Rattle.http_framing.specs.Headers.{headers_of, is_named};
ghost use Rattle.http_framing.specs.Request.{BeginsWithHead};
ghost use Rattle.origin_policy.specs.Allowed.{is_all};
ghost use Rattle.origin_policy.specs.Verdict.{admitted, decide, decision_of, is_cross_site, origin_of, page_admitted};

use crate::headers::{
    asks_method, find_origin, has_cross_site, has_foreign_host, has_foreign_origin, has_origin,
};
use crate::policy::Policy;
use http_framing::HEADER_LIMIT;
use httparse::Status;
use httparse::spans::{EMPTY_HEADER_SPAN, HeaderSpan, parse_request};

/// Why a request is refused.
#[derive(Clone, Copy, Debug, PartialEq, Eq)]
pub enum Forbidden {
    /// It is of a page of an origin that isn't allowed.
    Origin,
    /// It is of a page of another site, whose origin isn't said.
    Site,
    /// It reached the server by a name that isn't allowed.
    Host,
}

/// What is decided of a request.
#[derive(Clone, Copy, Debug, PartialEq, Eq)]
pub enum Verdict<'a> {
    /// It is answered.
    Pass,
    /// It is answered, and a page of this origin may read the answer.
    PassTo(&'a [u8]),
    /// A browser asks for a page of this origin whether it may make a request, and learns that it may.
    Preflight(&'a [u8]),
    /// It is refused.
    Forbidden(Forbidden),
}

/// What is decided of the request whose head these bytes begin with.
pub fn judge<'a>(policy: &Policy, bytes: &'a [u8]) -> Verdict<'a>
    requires { (head : RequestHead) × (after : List ℕ) × BeginsWithHead bytes.now head after }
    ensures { (head : RequestHead) (after : List ℕ) → BeginsWithHead bytes.now head after
        → decision_of result ≡ decide policy.now head.method (headers_of head) }
{
    let mut headers = [EMPTY_HEADER_SPAN; HEADER_LIMIT];
    match parse_request(bytes, &mut headers) {
        Ok(Status::Complete(head)) => {
            judge_head(
                policy,
                bytes,
                head.method.of(bytes),
                &headers[..head.headers],
            )
        }
        Ok(Status::Partial) => unreachable!(),
        Err(_) => unreachable!(),
    }
}

/// What is decided of a request with this method and these headers.
fn judge_head<'a>(
    policy: &Policy,
    bytes: &'a [u8],
    method: &[u8],
    headers: &[HeaderSpan],
) -> Verdict<'a>
    requires { All (IsHeaderWithin (length bytes.now)) headers.now }
    ensures { decision_of result
        ≡ decide policy.now method.now (map (header_bytes bytes.now) headers.now) }
{
    if has_foreign_origin(policy, bytes, headers) {
        return Verdict::Forbidden(Forbidden::Origin);
    }
    if is_unsaid_site(policy, bytes, headers) {
        return Verdict::Forbidden(Forbidden::Site);
    }
    if has_foreign_host(policy, bytes, headers) {
        return Verdict::Forbidden(Forbidden::Host);
    }
    admit(bytes, method, headers)
}

/// Whether a page of another site made the request, and no origin is said, which would decide.
fn is_unsaid_site(policy: &Policy, bytes: &[u8], headers: &[HeaderSpan]) -> bool
    requires { All (IsHeaderWithin (length bytes.now)) headers.now }
    ensures { result ≡ (not (list_any (λ header. is_named (codes "origin") (header_bytes bytes.now header)) headers.now)
        && (not (is_all policy.now.origins)
        && list_any (λ header. is_cross_site (header_bytes bytes.now header)) headers.now)) }
{
    !has_origin(bytes, headers) && (!policy.origins.is_all() && has_cross_site(bytes, headers))
}

/// What becomes of a request that isn't refused.
fn admit<'a>(bytes: &'a [u8], method: &[u8], headers: &[HeaderSpan]) -> Verdict<'a>
    requires { All (IsHeaderWithin (length bytes.now)) headers.now }
    ensures { decision_of result ≡ admitted method.now (map (header_bytes bytes.now) headers.now)
        (origin_of (map (header_bytes bytes.now) headers.now)) }
{
    match find_origin(bytes, headers) {
        Some(header) => admit_page(bytes, method, headers, header.value.of(bytes)),
        None => Verdict::Pass,
    }
}

/// What becomes of a request of a page of this origin that isn't refused.
fn admit_page<'a>(
    bytes: &[u8],
    method: &[u8],
    headers: &[HeaderSpan],
    origin: &'a [u8],
) -> Verdict<'a>
    requires { All (IsHeaderWithin (length bytes.now)) headers.now }
    ensures { decision_of result
        ≡ page_admitted method.now (map (header_bytes bytes.now) headers.now) origin.now }
{
    if is_preflight(bytes, method, headers) {
        return Verdict::Preflight(origin);
    }
    Verdict::PassTo(origin)
}

/// Whether a browser asks whether a page may make a request.
fn is_preflight(bytes: &[u8], method: &[u8], headers: &[HeaderSpan]) -> bool
    requires { All (IsHeaderWithin (length bytes.now)) headers.now }
    ensures { result ≡ (bytes_eq method.now (codes "OPTIONS") && list_any
        (λ header. is_named (codes "access-control-request-method") (header_bytes bytes.now header))
        headers.now) }
{
    method == b"OPTIONS".as_slice() && asks_method(bytes, headers)
}
