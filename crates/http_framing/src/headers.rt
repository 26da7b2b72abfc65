//! What the headers of a head say of the body and of the connection.
ghost use Rattle.std.specs.Prelude.{◌≡◌, ℕ, List, [], ◌∷◌, ◌++◌, length, map, All};
ghost use Rattle.std.specs.List.{list_any};
ghost use Rattle.httparse.specs.Spans.{header_bytes, IsHeaderWithin};
ghost use Rattle.http_framing.specs.Body.{length_said, body_length};
ghost use Rattle.http_framing.specs.Headers.{is_named, values_named};
ghost use Rattle.http_framing.specs.Occurs.{Occurs};
ghost use Rattle.http_framing.specs.Request.{is_close, closes_after};

use crate::{BODY_LIMIT, FramingFault};
use decimals::is_digits;
use httparse::spans::HeaderSpan;

/// Whether a header that was found in `bytes` has this name, in upper or lower case.
pub fn is_named(bytes: &[u8], header: &HeaderSpan, name: &[u8]) -> bool
    requires { IsHeaderWithin (length bytes.now) header.now }
    ensures { result ≡ is_named name.now (header_bytes bytes.now header.now) }
{
    header.name.of(bytes).eq_ignore_ascii_case(name)
}

/// The values of the headers of one name.
#[derive(Clone, Copy)]
enum Occurrence<'a> {
    Never,
    Once(&'a [u8]),
    Often,
}

impl<'a> Occurrence<'a> {
    /// With one more header, which may be of another name.
    fn add(self, bytes: &'a [u8], header: &HeaderSpan, name: &[u8]) -> Occurrence<'a>
        requires { IsHeaderWithin (length bytes.now) header.now }
        ensures { (values : List (List ℕ)) → Occurs self.entry values
            → Occurs result
            (values ++ values_named name.now (header_bytes bytes.now header.now ∷ [])) }
    {
        if !is_named(bytes, header, name) {
            return self;
        }
        match self {
            Occurrence::Never => Occurrence::Once(header.value.of(bytes)),
            _ => Occurrence::Often,
        }
    }
}

fn find_header<'a>(bytes: &'a [u8], headers: &[HeaderSpan], name: &[u8]) -> Occurrence<'a>
    requires { All (IsHeaderWithin (length bytes.now)) headers.now }
    ensures { Occurs result (values_named name.now (map (header_bytes bytes.now) headers.now)) }
{
    let mut found = Occurrence::Never;
    for header in headers {
        found = found.add(bytes, header, name);
    }
    found
}

/// The length that one value of `Content-Length` gives.
fn length_said(value: &[u8]) -> Result<usize, FramingFault>
    ensures { result ≡ length_said value.now }
{
    if !is_digits(value) {
        return Err(FramingFault::ContentLength);
    }
    let mut len = 0;
    for b in value {
        len = len * 10 + (*b - b'0') as usize;
        if len > BODY_LIMIT {
            return Err(FramingFault::LargeBody);
        }
    }
    Ok(len)
}

/// The length of the body after a head with these headers.
///
/// # Errors
///
/// [`FramingFault::TransferEncoding`], [`FramingFault::ContentLength`] or [`FramingFault::LargeBody`], the
/// first of them that is so.
pub fn body_length(bytes: &[u8], headers: &[HeaderSpan]) -> Result<usize, FramingFault>
    requires { All (IsHeaderWithin (length bytes.now)) headers.now }
    ensures { result ≡ body_length (map (header_bytes bytes.now) headers.now) }
{
    match find_header(bytes, headers, b"transfer-encoding") {
        Occurrence::Never => {}
        _ => return Err(FramingFault::TransferEncoding),
    }
    match find_header(bytes, headers, b"content-length") {
        Occurrence::Never => Ok(0),
        Occurrence::Once(value) => length_said(value),
        Occurrence::Often => Err(FramingFault::ContentLength),
    }
}

fn is_close(bytes: &[u8], header: &HeaderSpan) -> bool
    requires { IsHeaderWithin (length bytes.now) header.now }
    ensures { result ≡ is_close (header_bytes bytes.now header.now) }
{
    is_named(bytes, header, b"connection") && header.value.of(bytes).eq_ignore_ascii_case(b"close")
}

fn asks_close(bytes: &[u8], headers: &[HeaderSpan]) -> bool
    requires { All (IsHeaderWithin (length bytes.now)) headers.now }
    ensures { result
        ≡ list_any (λ header. is_close (header_bytes bytes.now header)) headers.now }
{
    headers.iter().any(|header| is_close(bytes, header))
}

/// Whether the connection closes after the response to a head of this minor version with these
/// headers.
pub fn closes(bytes: &[u8], version: u8, headers: &[HeaderSpan]) -> bool
    requires { All (IsHeaderWithin (length bytes.now)) headers.now }
    ensures { result ≡ closes_after version (map (header_bytes bytes.now) headers.now) }
{
    version == 0 || asks_close(bytes, headers)
}
