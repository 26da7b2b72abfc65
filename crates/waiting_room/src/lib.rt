//! Connections that wait hold no worker.
//!
//! One thread, the [`EventLoop`], accepts the connections that come to an [`Entrance`], and keeps each on which no byte of a next
//! request has come. The workers take those that are ready from the [`WaitingRoom`], in which both meet, and return each there that
//! waits again.
#![tactic(auto)]

mod connection;
mod entrance;
mod event_loop;
mod parked;
mod queue;
mod reports;
mod room;

pub use connection::Connection;
pub use entrance::Entrance;
pub use event_loop::{EventLoop, Terms};
pub use reports::Reports;
pub use room::WaitingRoom;
