//! Where the requests of a connection begin and end.
//!
//! A request is a head of HTTP/1.0 or 1.1, as `httparse` reads it, and a body of `Content-Length`
//! bytes. [`front::read_front`] finds the first one in the bytes that have come, without a copy. A
//! head has to end in the first [`HEAD_LIMIT`] bytes, so it does not matter how much more was read.
#![tactic(auto)]

pub mod front;
mod headers;
pub mod laws;
mod lines;
pub mod request;
mod target;

pub use headers::is_named;

/// The most bytes of a head.
pub const HEAD_LIMIT: usize = 16_384;

/// The most headers of a head.
pub const HEADER_LIMIT: usize = 64;

/// The most bytes of a body.
pub const BODY_LIMIT: usize = 1_048_576;

/// The most bytes of a request.
pub const REQUEST_LIMIT: usize = HEAD_LIMIT + BODY_LIMIT;

/// Why what follows on a connection is refused, and the connection closes.
///
/// Each is looked for before the next, but that a head with too many headers is
/// [`FramingFault::LargeHead`], whatever is behind them.
#[derive(Clone, Copy, Debug, PartialEq, Eq)]
pub enum FramingFault {
    /// The bytes can't become a head.
    Head,
    /// The head has too many headers, or does not end in the first [`HEAD_LIMIT`] bytes.
    LargeHead,
    /// There is a `Transfer-Encoding`.
    TransferEncoding,
    /// `Content-Length` is there twice, is empty, or has other than digits.
    ContentLength,
    /// `Content-Length` is above [`BODY_LIMIT`].
    LargeBody,
}
