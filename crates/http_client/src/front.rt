//! The first response of the bytes that have come.
ghost use Rattle.std.specs.Prelude.{◌≡◌, ◌≤◌, length};
ghost use Rattle.httparse.specs.Spans.{IsResponseOf as IsHeadOf, IsResponseWithin as IsHeadWithin};
ghost use Rattle.http_framing.specs.Front.{IsFrontOfWindow};
ghost use Rattle.http_framing.specs.Request.{header_limit};
ghost use Rattle.http_client.specs.Front.{IsFrontOf, IsResponseAt, response_at};

use crate::headers::told_length;
use http_framing::front::head_window;
use http_framing::{HEAD_LIMIT, HEADER_LIMIT};
use httparse::Status;
use httparse::spans::{
    EMPTY_HEADER_SPAN, HeaderSpan, ResponseSpans as HeadSpans, Span, parse_response,
};

/// The status of a response, and where its body lies in the bytes that begin with it.
#[derive(Clone, Copy, Debug, PartialEq, Eq)]
pub struct ResponseSpans {
    pub status: u16,
    /// The body, with whose end the response ends.
    pub body: Span,
}

impl ResponseSpans {
    /// How many bytes the response takes.
    pub fn taken(&self) -> usize
        ensures taken { result ≡ self.now.body.end }
    {
        self.body.end
    }

    /// The body.
    pub fn body<'a>(&self, bytes: &'a [u8]) -> &'a [u8]
        requires { IsResponseAt bytes.now self.now }
        ensures body { result.now ≡ (response_at bytes.now self.now).body }
    {
        self.body.of(bytes)
    }
}

/// What the bytes begin with.
#[derive(Clone, Copy, Debug, PartialEq, Eq)]
pub(crate) enum Front {
    /// A whole response.
    Response(ResponseSpans),
    /// A part of a response, which needs at least so many more bytes.
    More(usize),
    /// No response that can be read, whatever follows.
    Unreadable,
}

/// What the bytes begin with, by the head that was found in them.
fn front_of_head(bytes: &[u8], window: &[u8], headers: &[HeaderSpan], head: HeadSpans) -> Front
    requires window { IsFrontOfWindow window.now bytes.now }
    requires room { length headers.now ≤ header_limit }
    requires within { IsHeadWithin window.now headers.now head }
    requires complete { IsHeadOf window.now headers.now head }
    ensures { IsFrontOf bytes.now result }
{
    let Some(len) = told_length(window, &headers[..head.headers]) else {
        return Front::Unreadable;
    };
    let end = head.len + len as usize;
    if bytes.len() < end {
        return Front::More(end - bytes.len());
    }
    Front::Response(ResponseSpans {
        status: head.code,
        body: Span {
            start: head.len,
            end,
        },
    })
}

/// What the bytes begin with: a response, a part of one, or nothing that can be read.
pub(crate) fn read_front(bytes: &[u8]) -> Front
    ensures { IsFrontOf bytes.now result }
{
    let window = head_window(bytes);
    let mut headers = [EMPTY_HEADER_SPAN; HEADER_LIMIT];
    match parse_response(window, &mut headers) {
        Ok(Status::Complete(head)) => front_of_head(bytes, window, &headers, head),
        Ok(Status::Partial) if bytes.len() < HEAD_LIMIT => Front::More(1),
        Ok(Status::Partial) | Err(_) => Front::Unreadable,
    }
}
