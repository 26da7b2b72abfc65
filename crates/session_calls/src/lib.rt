//! Sessions that share a database with other threads, as `session_api` has them.
//!
//! A [`SharedSession`] is a [`Session`](sessions::Session) that is a [`Viewer`](session_api::Viewer), has its
//! [`Calls`](session_api::Calls), and is an end of a replication. Who needs the version that it sees, as a journal does, asks
//! [`SeesVersion`].
#![tactic(auto)]

mod calls;
mod following;
mod opened;
mod session;
mod vectors;
mod version;

pub use following::next_rows;
pub use opened::Opened;
pub use session::SharedSession;
pub use vectors::{all_sessions, all_shared};
pub use version::SeesVersion;
