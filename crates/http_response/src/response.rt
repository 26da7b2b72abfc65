//! A response: what its head says, and a body, unless the request takes the head alone.
ghost use Rattle.std.specs.Prelude.{◌≡◌, ◌++◌, ◌≤◌, length};
ghost use Rattle.streams.specs.Counts.{CountsFailure};
ghost use Rattle.streams.specs.Writes.{Writes};
ghost use Rattle.http_response.specs.declared.response.TheConstants.{SHORT_BODY};
ghost use Rattle.http_response.specs.Response.{bytes_of, head_text, response_text};

use crate::body::BodyText;
use crate::connection::Connection;
use crate::head::{Allow, HEAD_ROOM, Head, push_head};
use crate::status::StatusCode;
use arrayvec::ArrayString;
use http_request::Extent;
use std::marker::Model;
use streams::{Failed, Sink, write_all, write_both};

/// Room for a head and a short body.
const SHORT_ROOM: usize = 512;

/// The most bytes of a short body.
const SHORT_BODY: usize = SHORT_ROOM - HEAD_ROOM;

/// A response, whose head is made into text only when it is written. Clauses see its bytes.
pub struct Response {
    head: Head,
    body: BodyText,
}

impl Drop for Response {
    fn drop(self) {
        let Response { head: _, body: _ } = self;
    }
}

impl Model for Response {
    ghost use Rattle.std.specs.Prelude.{ℕ, List, ◌++◌};
    ghost use Rattle.http_response.specs.Response.{bytes_of, head_text};

    ghost Value = { List ℕ };

    ghost view = { λ r. head_text r.head.status r.head.len r.head.place r.head.allow r.head.connection
        ++ bytes_of r.body };
}

impl Response {
    /// A response of which the body is left out where the request takes the head alone.
    pub(crate) fn new(
        status: StatusCode,
        place: u64,
        allow: Allow,
        connection: Connection,
        extent: Extent,
        body: BodyText,
    ) -> Response
        ensures { result ≡ response_text status place allow connection extent (bytes_of body) }
    {
        let head = Head {
            status,
            len: body.as_str().len(),
            place,
            allow,
            connection,
        };
        Response {
            head,
            body: body.taken(extent),
        }
    }

    /// A whole response that lists no methods.
    pub(crate) fn plain(
        status: StatusCode,
        place: u64,
        connection: Connection,
        body: BodyText,
    ) -> Response
        ensures { result ≡ response_text status place Allow.Unsaid connection Extent.Whole (bytes_of body) }
    {
        Response::new(
            status,
            place,
            Allow::Unsaid,
            connection,
            Extent::Whole,
            body,
        )
    }

    /// Writes it, as one text where it is short, as most are.
    ///
    /// # Errors
    ///
    /// A write failed. A beginning of the text, not all, may have been written.
    pub fn write<W: Sink>(&self, writer: &mut W) -> Result<(), Failed>
        ensures written { Writes (W.taken writer.old) (W.taken writer.new) result self.now }
        ensures failures { CountsFailure (W.failed_writes writer.old) (W.failed_writes writer.new) result }
    {
        write_parts(writer, &self.head, self.body.as_str())
    }
}

/// Writes a head and a body.
fn write_parts<W: Sink>(writer: &mut W, head: &Head, body: &str) -> Result<(), Failed>
    ensures written { Writes (W.taken writer.old) (W.taken writer.new) result
        (head_text head.now.status head.now.len head.now.place head.now.allow head.now.connection ++ body.now) }
    ensures failures { CountsFailure (W.failed_writes writer.old) (W.failed_writes writer.new) result }
{
    if body.len() <= SHORT_BODY {
        return write_short(writer, head, body);
    }
    let mut text = ArrayString::<HEAD_ROOM>::new();
    push_head(&mut text, head);
    write_both(writer, text.as_str(), body)
}

/// Writes a head and a short body as one text.
fn write_short<W: Sink>(writer: &mut W, head: &Head, body: &str) -> Result<(), Failed>
    requires short { length body.now ≤ SHORT_BODY }
    ensures written { Writes (W.taken writer.old) (W.taken writer.new) result
        (head_text head.now.status head.now.len head.now.place head.now.allow head.now.connection ++ body.now) }
    ensures failures { CountsFailure (W.failed_writes writer.old) (W.failed_writes writer.new) result }
{
    let mut text = ArrayString::<SHORT_ROOM>::new();
    push_head(&mut text, head);
    text.push_str(body);
    write_all(writer, text.as_str().as_bytes())
}
