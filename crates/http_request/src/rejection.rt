//! Why a request is rejected.

use document_json::Reason;
use http_routing::Route;

/// Why a request is rejected, after which the connection goes on.
#[derive(Clone, Copy, Debug, PartialEq, Eq)]
pub enum Rejection {
    /// The path has no route.
    Missing,
    /// The method is not one of the route's.
    MethodNotAllowed(Route),
    /// The request is not as its route asks.
    BadRequest(Reason),
}

/// Why a request was not decided to ask something.
#[derive(Clone, Copy, Debug, PartialEq, Eq)]
pub(crate) enum Undecided {
    /// The request is rejected.
    Rejected(Rejection),
    /// Memory was refused.
    Memory,
}

impl From<Rejection> for Undecided {
    ghost use Rattle.std.specs.Prelude.{◌≡◌};
    ghost use Rattle.http_request.specs.declared.rejection.Undecided.TheVariants.{Rejected};

    ghost from_gives = { λ rejection undecided. undecided ≡ Rejected rejection };

    fn from(rejection: Rejection) -> Undecided {
        Undecided::Rejected(rejection)
    }
}
