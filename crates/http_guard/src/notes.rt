//! What hears of requests that no service answers.

use http_framing::request::Request;
use std::time::Instant;

/// Hears of the requests that are answered here, and that no service hears of.
pub trait Notes {
    /// A response to one begins. The answer is the time, where it is wanted and the clock can be read.
    fn begin(&self) -> Option<Instant>;

    /// The response to this one, which began then, was written, or a write of it failed.
    fn end(&self, began: Option<Instant>, request: &Request<'_>);
}
