//! What the headers of a response say of its body.
ghost use Rattle.std.specs.Prelude.{◌≡◌, ◌+◌, ◌<◌, drop, length, map, option_map, All};
ghost use Rattle.std.specs.List.{list_any, position};
ghost use Rattle.decimals.specs.Number.{number};
ghost use Rattle.httparse.specs.Spans.{header_bytes, IsHeaderWithin};
ghost use Rattle.http_framing.specs.Headers.{is_named, values_named};
ghost use Rattle.http_client.specs.Response.{only, told_length};

use decimals::parse_number;
use http_framing::is_named;
use httparse::spans::HeaderSpan;

/// The value of the header of this name, if there is just one.
fn only_value<'a>(bytes: &'a [u8], headers: &[HeaderSpan], name: &[u8]) -> Option<&'a [u8]>
    requires { All (IsHeaderWithin (length bytes.now)) headers.now }
    ensures { option_map (λ value. value.now) result
        ≡ only (values_named name.now (map (header_bytes bytes.now) headers.now)) }
{
    let Some(first) = position_named(bytes, headers, name) else {
        return None;
    };
    if is_there_behind(bytes, headers, first, name) {
        return None;
    }
    Some(headers[first].value.of(bytes))
}

/// The place of the first header of this name.
fn position_named(bytes: &[u8], headers: &[HeaderSpan], name: &[u8]) -> Option<usize>
    requires { All (IsHeaderWithin (length bytes.now)) headers.now }
    ensures { result
        ≡ position (λ header. is_named name.now (header_bytes bytes.now header)) headers.now }
{
    headers
        .iter()
        .position(|header| is_named(bytes, header, name))
}

/// Whether a header behind this one has this name.
fn is_there_behind(bytes: &[u8], headers: &[HeaderSpan], first: usize, name: &[u8]) -> bool
    requires within { All (IsHeaderWithin (length bytes.now)) headers.now }
    requires inside { first < length headers.now }
    ensures { result ≡ list_any (λ header. is_named name.now (header_bytes bytes.now header))
        (drop (first + 1) headers.now) }
{
    is_there(bytes, &headers[first + 1..], name)
}

/// The number that a value says.
fn parse_length(value: &[u8]) -> Option<u64>
    ensures { result ≡ number value.now }
{
    let Ok(text) = str::from_utf8(value) else {
        return None;
    };
    parse_number(text)
}

/// Whether a header has this name.
fn is_there(bytes: &[u8], headers: &[HeaderSpan], name: &[u8]) -> bool
    requires { All (IsHeaderWithin (length bytes.now)) headers.now }
    ensures { result
        ≡ list_any (λ header. is_named name.now (header_bytes bytes.now header)) headers.now }
{
    headers.iter().any(|header| is_named(bytes, header, name))
}

/// The length of the body that these headers give.
pub(crate) fn told_length(bytes: &[u8], headers: &[HeaderSpan]) -> Option<u64>
    requires { All (IsHeaderWithin (length bytes.now)) headers.now }
    ensures { result ≡ told_length (map (header_bytes bytes.now) headers.now) }
{
    if is_there(bytes, headers, b"transfer-encoding") {
        return None;
    }
    let Some(value) = only_value(bytes, headers, b"content-length") else {
        return None;
    };
    parse_length(value)
}
