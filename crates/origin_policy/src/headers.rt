//! What the headers of a request say of the page that made it.
ghost use Rattle.std.specs.Prelude.{◌≡◌, ◌<◌, ◌||◌, length, map, option_map, All, IfSome, codes};
ghost use Rattle.std.specs.Char.{is_ascii_digit};
ghost use Rattle.std.specs.List.{find, list_all, list_any, position};
ghost use Rattle.http_framing.specs.Headers.{is_named};
ghost use Rattle.httparse.specs.Spans.{header_bytes, IsHeaderWithin};
ghost use Rattle.origin_policy.specs.Names.{host_name, is_colon, is_dot, is_literal, is_near, is_own_host};
ghost use Rattle.origin_policy.specs.Verdict.{is_cross_site, is_foreign_host, is_foreign_origin};

use crate::policy::{Allowed, Policy};
use http_framing::is_named;
use httparse::spans::HeaderSpan;

/// Whether an `Origin` is there that isn't allowed.
pub(crate) fn has_foreign_origin(policy: &Policy, bytes: &[u8], headers: &[HeaderSpan]) -> bool
    requires { All (IsHeaderWithin (length bytes.now)) headers.now }
    ensures { result
        ≡ list_any (λ header. is_foreign_origin policy.now (header_bytes bytes.now header)) headers.now }
{
    headers
        .iter()
        .any(|header| is_foreign_origin(policy, bytes, header))
}

fn is_foreign_origin(policy: &Policy, bytes: &[u8], header: &HeaderSpan) -> bool
    requires { IsHeaderWithin (length bytes.now) header.now }
    ensures { result ≡ is_foreign_origin policy.now (header_bytes bytes.now header.now) }
{
    is_named(bytes, header, b"origin") && !policy.origins.allows_origin(header.value.of(bytes))
}

/// Whether a `Host` is there by which the server may not be reached.
pub(crate) fn has_foreign_host(policy: &Policy, bytes: &[u8], headers: &[HeaderSpan]) -> bool
    requires { All (IsHeaderWithin (length bytes.now)) headers.now }
    ensures { result
        ≡ list_any (λ header. is_foreign_host policy.now (header_bytes bytes.now header)) headers.now }
{
    headers
        .iter()
        .any(|header| is_foreign_host(policy, bytes, header))
}

fn is_foreign_host(policy: &Policy, bytes: &[u8], header: &HeaderSpan) -> bool
    requires { IsHeaderWithin (length bytes.now) header.now }
    ensures { result ≡ is_foreign_host policy.now (header_bytes bytes.now header.now) }
{
    is_named(bytes, header, b"host") && !is_own_host(&policy.hosts, header.value.of(bytes))
}

/// Whether the server may be reached by what a value of `Host` says.
fn is_own_host(hosts: &Allowed, value: &[u8]) -> bool
    ensures { result ≡ is_own_host hosts.now value.now }
{
    if is_literal(value) {
        return true;
    }
    let name = host_name(value);
    is_near(name) || hosts.allows_host(name)
}

fn is_literal(value: &[u8]) -> bool
    ensures { result ≡ is_literal value.now }
{
    value.starts_with(b"[")
}

/// What stands before the port.
fn host_name(value: &[u8]) -> &[u8]
    ensures { result.now ≡ host_name value.now }
{
    match colon_at(value) {
        Some(end) => &value[..end],
        None => value,
    }
}

/// The place of the first colon.
fn colon_at(value: &[u8]) -> Option<usize>
    ensures first { result ≡ position is_colon value.now }
    ensures within { IfSome result (λ place. place < length value.now) }
{
    value.iter().position(|byte| *byte == b':')
}

/// Whether a name has no dot, or is an address.
fn is_near(name: &[u8]) -> bool
    ensures { result ≡ is_near name.now }
{
    !has_dot(name) || is_numeric(name)
}

fn has_dot(name: &[u8]) -> bool
    ensures { result ≡ list_any is_dot name.now }
{
    name.iter().any(|byte| *byte == b'.')
}

fn is_numeric(name: &[u8]) -> bool
    ensures { result ≡ list_all (λ byte. is_dot byte || is_ascii_digit byte) name.now }
{
    name.iter()
        .all(|byte| *byte == b'.' || byte.is_ascii_digit())
}

/// Whether the headers say that a page of another site made the request.
pub(crate) fn has_cross_site(bytes: &[u8], headers: &[HeaderSpan]) -> bool
    requires { All (IsHeaderWithin (length bytes.now)) headers.now }
    ensures { result ≡ list_any (λ header. is_cross_site (header_bytes bytes.now header)) headers.now }
{
    headers.iter().any(|header| is_cross_site(bytes, header))
}

fn is_cross_site(bytes: &[u8], header: &HeaderSpan) -> bool
    requires { IsHeaderWithin (length bytes.now) header.now }
    ensures { result ≡ is_cross_site (header_bytes bytes.now header.now) }
{
    is_named(bytes, header, b"sec-fetch-site") && header.value.of(bytes) == b"cross-site".as_slice()
}

/// Whether an `Origin` is there.
pub(crate) fn has_origin(bytes: &[u8], headers: &[HeaderSpan]) -> bool
    requires { All (IsHeaderWithin (length bytes.now)) headers.now }
    ensures { result
        ≡ list_any (λ header. is_named (codes "origin") (header_bytes bytes.now header)) headers.now }
{
    headers
        .iter()
        .any(|header| is_named(bytes, header, b"origin"))
}

/// The first `Origin`.
pub(crate) fn find_origin<'h>(bytes: &[u8], headers: &'h [HeaderSpan]) -> Option<&'h HeaderSpan>
    requires { All (IsHeaderWithin (length bytes.now)) headers.now }
    ensures found { option_map (λ header. header.now) result
        ≡ find (λ header. is_named (codes "origin") (header_bytes bytes.now header)) headers.now }
    ensures within { IfSome result (λ header. IsHeaderWithin (length bytes.now) header.now) }
{
    headers
        .iter()
        .find(|header| is_named(bytes, header, b"origin"))
}

/// Whether a method is said for which a browser asks.
pub(crate) fn asks_method(bytes: &[u8], headers: &[HeaderSpan]) -> bool
    requires { All (IsHeaderWithin (length bytes.now)) headers.now }
    ensures { result ≡ list_any
        (λ header. is_named (codes "access-control-request-method") (header_bytes bytes.now header))
        headers.now }
{
    headers.iter().any(|header| is_named(bytes, header, b"access-control-request-method"))
}
