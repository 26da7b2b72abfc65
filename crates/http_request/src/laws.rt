//! What holds of all requests.
ghost use Rattle.std.specs.Prelude.{◌≡◌, Ok};
ghost use Rattle.http_framing.specs.Request.{Request};
ghost use Rattle.model.specs.Command.{Command};
ghost use Rattle.http_request.specs.Decide.{decide};
ghost use Rattle.http_request.specs.Extent.{extent_of};
ghost use Rattle.http_request.specs.Forms.{IsFormOf};

use crate::asked::{Asked, Form};
use crate::extent::Extent;

/// A request asks for a command in a form in which such a command is answered.
pub fn forms_fit()
    ensures { (request : Request) (form : Form) (command : Command)
        → decide request ≡ Ok (Asked.Command form command) → IsFormOf form command }
{}

/// What asks for something takes the whole response: HEAD is refused on every route.
pub fn asked_whole()
    ensures { (request : Request) (asked : Asked) → decide request ≡ Ok asked
        → extent_of request ≡ Extent.Whole }
{}
