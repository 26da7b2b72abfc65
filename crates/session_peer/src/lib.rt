//! A session of a database as one end of a replication.
//!
//! A [`SessionPeer`] answers each call of [`replicator::Peer`] by one look or one write of its session, or by none
//! where the command can't be made. Where its session is out of memory, so is the call; every other fault of the
//! session is a failure.
#![tactic(auto)]

mod checkpoints;
mod peer;
mod shown;
mod written;

pub use peer::SessionPeer;
