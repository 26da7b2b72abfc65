//! The version that a session sees.
ghost use Rattle.std.specs.Prelude.{◌≡◌};
ghost use Rattle.session_api.specs.Known.{history_of};

use crate::session::SharedSession;
use session_api::Viewer;
use snapshots::Version;
use updater_state::Opening;

/// A session that sees a version of a database.
pub trait SeesVersion: Viewer {
    /// The version that was seen.
    fn version(&self) -> &Version
        ensures version { result.now ≡ history_of (Self.known self.now) };
}

impl<C: Drop, J: Opening, G: Drop> SeesVersion for SharedSession<C, J, G> {
    fn version(&self) -> &Version {
        self.seen()
    }
}
