//! Replication: the changes of one database are brought to another.
//!
//! A [`Worker`] is between two [`Peer`]s, and makes one call on one of them a step. It writes a
//! checkpoint only where all up to it has come to the target, and at the target first.
#![tactic(auto)]

mod asking;
mod checkpoint;
mod due;
mod ends;
mod fault;
mod job;
mod laws;
mod pass;
mod peer;
mod progress;
mod readable;
mod sizes;
mod stage;
mod stages;
mod wanted;
mod worker;

pub use checkpoint::Checkpoint;
pub use fault::PeerFault;
pub use laws::calls_are_sound;
pub use peer::{Opened, Peer};
pub use progress::Progress;
pub use wanted::next_revs;
pub use worker::{MAX_BATCH, Worker};
