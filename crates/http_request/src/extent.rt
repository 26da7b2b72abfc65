//! How much of its response a request takes.
ghost use Rattle.std.specs.Prelude.{◌≡◌};
ghost use Rattle.http_request.specs.Extent.{extent_of};

use http_framing::request::Request;

/// How much of its response a request takes.
#[derive(Clone, Copy, Debug, PartialEq, Eq)]
pub enum Extent {
    /// The head and the body.
    Whole,
    /// The head alone, with the length of the body that is left out.
    HeadAlone,
}

/// How much of its response a request takes, whatever the status: of HEAD the head alone.
pub fn extent_of(request: &Request<'_>) -> Extent
    ensures { result ≡ extent_of request.now }
{
    if request.method() == "HEAD".as_bytes() {
        Extent::HeadAlone
    } else {
        Extent::Whole
    }
}
