//! What a program that serves a database does with its standard streams, and with a listener.
//!
//! [`run_once`] and [`run_dump`] serve one connection over the standard streams, and [`run_server`] those
//! of a listener, each with an empty database. How a connection is served is [`serve`].
#![tactic(auto)]

mod dumping;
mod dumps;
mod nowhere;
mod once;
mod opening;
mod running;
mod server;

pub use dumping::run_dump;
pub use dumps::dump;
pub use http_turns::{Setting, serve};
pub use http_workers::{Allowed, Entrance, Lines, Pace, Policy, Terms, Watch, Workers, listen};
pub use once::run_once;
pub use opening::{MAX_PLACES, server_config};
pub use running::Running;
pub use server::{SERVER_TURNS, run_server};
pub use session_api::{CallFault, Calls, Viewer};
