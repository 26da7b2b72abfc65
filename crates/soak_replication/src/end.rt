//! What runs ask of an end.

use replicator::Peer;
use session_api::Replica;
use session_calls::SeesVersion;
use session_peer::SessionPeer;
use snapshots::Version;

/// An end of a replication that shows its database.
pub(crate) trait End: Peer {
    /// What its session has seen.
    fn version(&self) -> &Version;
}

impl<'c, X, S: Replica<X> + SeesVersion> End for SessionPeer<'c, X, S> {
    fn version(&self) -> &Version {
        self.session().version()
    }
}
