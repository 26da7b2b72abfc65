//! What connections, journals and replications ask of a session of a database.
//!
//! A [`Viewer`] sees the history of a database grow, and answers queries over what it has seen. [`Calls`] are those that may wait:
//! a write, and a wait for changes, and a [`Replica`] is one end of a replication. What is known of a session, and what it learns by each call, are definitions of `specs`. None
//! of it depends on how a database is stored, or shared with other sessions.
#![tactic(auto)]

mod calls;
mod fault;
mod following;
mod replica;
mod revisions;

pub use calls::{Calls, Viewer};
pub use fault::{CallFault, Unavailable};
pub use following::Following;
pub use replica::Replica;
pub use revisions::Revisions;
