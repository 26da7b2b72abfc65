//! A request, borrowed from the bytes that it came in.
ghost use Rattle.std.specs.Prelude.{◌≡◌};

use std::marker::Model;

/// A request: what its head asks, and its body.
#[derive(Debug, Drop)]
pub struct Request<'a> {
    method: &'a [u8],
    target: &'a str,
    body: &'a [u8],
    closes: bool,
}

impl<'a> Model for Request<'a> {
    ghost use Rattle.http_framing.specs.Request as spec;

    ghost Value = { spec.Request };

    ghost view = { λ r. record {
      method = r.method.now;
      target = r.target.now;
      body = r.body.now;
      closes = r.closes;
    } };
}

impl<'a> Request<'a> {
    /// A request of these parts.
    pub fn new(method: &'a [u8], target: &'a str, body: &'a [u8], closes: bool) -> Request<'a>
        ensures { result ≡ record {
          method = method.now;
          target = target.now;
          body = body.now;
          closes = closes;
        } }
    {
        Request {
            method,
            target,
            body,
            closes,
        }
    }

    /// The method, such as `GET`, as it was sent.
    pub fn method(&self) -> &'a [u8]
        ensures { result.now ≡ self.now.method }
    {
        self.method
    }

    /// The path and the query string, as they were sent.
    pub fn target(&self) -> &'a str
        ensures { result.now ≡ self.now.target }
    {
        self.target
    }

    /// The body, which is empty where the request has none.
    pub fn body(&self) -> &'a [u8]
        ensures { result.now ≡ self.now.body }
    {
        self.body
    }

    /// Whether the connection closes after the response.
    pub fn closes(&self) -> bool
        ensures { result ≡ self.now.closes }
    {
        self.closes
    }
}
