//! The first request of the bytes that have come.
ghost use Rattle.std.specs.Prelude.{◌≡◌, ◌≤◌, length, IfSome};
ghost use Rattle.httparse.specs.Grammar.{EndsInTarget, HasNoRequest, MayBecomeRequest, NeverHasRequest};
ghost use Rattle.httparse.specs.Spans.{IsRequestOf as IsHeadOf, IsRequestWithin as IsHeadWithin, RequestExceeds};
ghost use Rattle.http_framing.specs.Request.{header_limit};
ghost use Rattle.http_framing.specs.Refusal.{head_window, IsRefused};
ghost use Rattle.http_framing.specs.Front.{IsFrontOfWindow, IsRequestAt, IsFrontOf, request_at};

use crate::headers::{body_length, closes};
use crate::lines::first_lines;
use crate::request::Request;
use crate::target::ends_in_target;
use crate::{FramingFault, HEAD_LIMIT, HEADER_LIMIT};
use httparse::spans::{
    EMPTY_HEADER_SPAN, HeaderSpan, RequestSpans as HeadSpans, Span, parse_request,
};
use httparse::{Error, Status};

/// How many headers a head is first read with: less room to clear than for [`HEADER_LIMIT`].
const USUAL_HEADERS: usize = 16;

/// Where the parts of a request lie in the bytes that begin with it.
#[derive(Clone, Copy, Debug, PartialEq, Eq)]
pub struct RequestSpans {
    pub method: Span,
    pub target: Span,
    /// The body, with whose end the request ends.
    pub body: Span,
    /// Whether the connection closes after the response: the request is of HTTP/1.0, or has a
    /// header `Connection: close`.
    pub closes: bool,
}

impl RequestSpans {
    /// How many bytes the request takes.
    pub fn taken(&self) -> usize
        ensures { result ≡ self.now.body.end }
    {
        self.body.end
    }

    /// The request itself.
    pub fn request<'a>(&self, bytes: &'a [u8]) -> Request<'a>
        requires { IsRequestAt bytes.now self.now }
        ensures { result ≡ request_at bytes.now self.now }
    {
        let Ok(target) = str::from_utf8(self.target.of(bytes)) else {
            unreachable!()
        };
        Request::new(
            self.method.of(bytes),
            target,
            self.body.of(bytes),
            self.closes,
        )
    }
}

/// What the bytes of a connection begin with.
#[derive(Clone, Copy, Debug, PartialEq, Eq)]
pub enum Front {
    /// A whole request.
    Request(RequestSpans),
    /// Bytes that are refused, with all that follows them.
    Refused(FramingFault),
    /// A part of a request, which needs at least so many more bytes.
    More(usize),
}

/// The bytes in which a head has to end.
#[tactic(auto, using(std::proofs::lemmas::List::take_min))]
pub fn head_window(bytes: &[u8]) -> &[u8]
    ensures { result.now ≡ head_window bytes.now }
{
    &bytes[..HEAD_LIMIT.min(bytes.len())]
}

/// What the bytes begin with, by the head that was found in them.
fn front_of_head(bytes: &[u8], window: &[u8], headers: &[HeaderSpan], head: HeadSpans) -> Front
    requires window { IsFrontOfWindow window.now bytes.now }
    requires room { length headers.now ≤ header_limit }
    requires within { IsHeadWithin window.now headers.now head }
    requires complete { IsHeadOf window.now headers.now head }
    ensures { IsFrontOf bytes.now result }
{
    let headers = &headers[..head.headers];
    let len = match body_length(window, headers) {
        Ok(len) => len,
        Err(fault) => return Front::Refused(fault),
    };
    let end = head.len + len;
    if bytes.len() < end {
        return Front::More(end - bytes.len());
    }
    Front::Request(RequestSpans {
        method: head.method,
        target: head.path,
        body: Span {
            start: head.len,
            end,
        },
        closes: closes(window, head.version, headers),
    })
}

/// What the bytes begin with, where the window has no whole head yet.
fn front_of_part(bytes: &[u8], window: &[u8]) -> Front
    requires window { window.now ≡ head_window bytes.now }
    requires none { HasNoRequest window.now }
    requires may { MayBecomeRequest window.now }
    ensures { IsFrontOf bytes.now result }
{
    if bytes.len() >= HEAD_LIMIT {
        return Front::Refused(FramingFault::LargeHead);
    }
    if first_lines(window).are_many {
        return Front::Refused(FramingFault::LargeHead);
    }
    Front::More(1)
}

/// Why the bytes are refused, where the window is no head, whatever follows.
fn fault_of_no_head(bytes: &[u8], window: &[u8]) -> FramingFault
    requires window { window.now ≡ head_window bytes.now }
    requires never { NeverHasRequest window.now }
    requires past { ¬ (EndsInTarget window.now) }
    ensures { IsRefused bytes.now result }
{
    let lines = first_lines(window);
    let mut headers = [EMPTY_HEADER_SPAN; HEADER_LIMIT];
    match parse_request(lines.bytes, &mut headers) {
        Ok(Status::Complete(_head)) => unreachable!(),
        Ok(Status::Partial) | Err(Error::TooManyHeaders) => FramingFault::LargeHead,
        Err(_) => FramingFault::Head,
    }
}

/// What the bytes begin with, unless it is a head with more headers than there is room for.
fn front_with(bytes: &[u8], headers: &mut [HeaderSpan]) -> Option<Front>
    requires { length headers.old ≤ header_limit }
    ensures front { IfSome result (IsFrontOf bytes.now) }
    ensures many { result ≡ None → RequestExceeds (length headers.old) (head_window bytes.now) }
{
    let window = head_window(bytes);
    match parse_request(window, headers) {
        Ok(Status::Complete(head)) => Some(front_of_head(bytes, window, headers, head)),
        Ok(Status::Partial) => Some(front_of_part(bytes, window)),
        Err(Error::TooManyHeaders) => None,
        Err(_) if ends_in_target(window) => Some(front_of_part(bytes, window)),
        Err(_) => Some(Front::Refused(fault_of_no_head(bytes, window))),
    }
}

/// What the bytes begin with, with room for as many headers as a head may have.
fn front_of_many(bytes: &[u8]) -> Front
    ensures { IsFrontOf bytes.now result }
{
    let mut headers = [EMPTY_HEADER_SPAN; HEADER_LIMIT];
    match front_with(bytes, &mut headers) {
        Some(front) => front,
        None => Front::Refused(FramingFault::LargeHead),
    }
}

/// What the bytes begin with: a request, a fault, or a part of a request.
pub fn read_front(bytes: &[u8]) -> Front
    ensures { IsFrontOf bytes.now result }
{
    let mut headers = [EMPTY_HEADER_SPAN; USUAL_HEADERS];
    match front_with(bytes, &mut headers) {
        Some(front) => front,
        None => front_of_many(bytes),
    }
}
