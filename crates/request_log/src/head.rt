//! The head of a response.
ghost use Rattle.std.specs.Prelude.{◌≡◌, ◌≤◌, ℕ, List, length, map, option_map, All, IfSome, codes};
ghost use Rattle.std.specs.List.{find};
ghost use Rattle.http_framing.specs.Headers.{is_named};
ghost use Rattle.httparse.specs.Grammar.{HasNoResponse, ReadsResponse, ResponseHead};
ghost use Rattle.httparse.specs.Spans.{header_bytes, IsHeaderWithin};
ghost use Rattle.request_log.specs.Head.{head_said, no_head, number_said, place_said};

use decimals::parse_number;
use http_framing::is_named;
use httparse::Status;
use httparse::spans::{EMPTY_HEADER_SPAN, HeaderSpan, parse_response};

/// The most headers of a response.
const MOST_HEADERS: usize = 16;

/// The header with the place.
const PLACE: &[u8] = b"Couch-Place";

/// What a line says of a head.
#[derive(Clone, Copy, Debug, PartialEq, Eq)]
pub(crate) struct Head {
    pub(crate) status: u64,
    pub(crate) place: u64,
}

/// What a line says where there is no head.
const NO_HEAD: Head = Head {
    status: 0,
    place: 0,
};

/// What is said of the head that these bytes begin with, which has at most [`MOST_HEADERS`] headers.
pub(crate) fn head_of(bytes: &[u8]) -> Head
    ensures found { (head : ResponseHead) (rest : List ℕ) → ReadsResponse bytes.now head rest
        → length head.fields ≤ 16 → result ≡ head_said head }
    ensures none { HasNoResponse bytes.now → result ≡ no_head }
{
    let mut headers = [EMPTY_HEADER_SPAN; MOST_HEADERS];
    match parse_response(bytes, &mut headers) {
        Ok(Status::Complete(head)) => Head {
            status: head.code as u64,
            place: place_of(bytes, &headers[..head.headers]),
        },
        Ok(Status::Partial) | Err(_) => NO_HEAD,
    }
}

/// The number in the first header with the place; 0 where there is none.
fn place_of(bytes: &[u8], headers: &[HeaderSpan]) -> u64
    requires { All (IsHeaderWithin (length bytes.now)) headers.now }
    ensures { result ≡ place_said (map (header_bytes bytes.now) headers.now) }
{
    match find_place(bytes, headers) {
        Some(header) => number_of(header.value.of(bytes)),
        None => 0,
    }
}

/// The first header with the place.
fn find_place<'h>(bytes: &[u8], headers: &'h [HeaderSpan]) -> Option<&'h HeaderSpan>
    requires { All (IsHeaderWithin (length bytes.now)) headers.now }
    ensures found { option_map (λ header. header.now) result
        ≡ find (λ header. is_named (codes "Couch-Place") (header_bytes bytes.now header)) headers.now }
    ensures within { IfSome result (λ header. IsHeaderWithin (length bytes.now) header.now) }
{
    headers.iter().find(|header| is_named(bytes, header, PLACE))
}

/// The number that a value writes; 0 where it writes none.
fn number_of(value: &[u8]) -> u64
    ensures { result ≡ number_said value.now }
{
    let Ok(text) = str::from_utf8(value) else {
        return 0;
    };
    parse_number(text).unwrap_or(0)
}
