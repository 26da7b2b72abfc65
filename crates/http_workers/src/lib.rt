//! The workers of a server.
//!
//! [`listen`] lends sessions to workers, which serve the connections of an [`Entrance`]: each takes one on which a request comes, and
//! returns it as soon as its client is silent, so those that wait hold no worker. Or each accepts connections, and has one after
//! another until it ends. What an operator is to know of them goes to a [`Watch`].
#![tactic(auto)]

mod accepting;
mod buffers;
mod faults;
mod guarding;
mod listening;
mod muster;
mod noticing;
mod room;
mod serving;
mod visiting;
mod watch;
mod workers;

pub use listening::{Terms, listen};
pub use origin_policy::{Allowed, Policy};
pub use request_log::Lines;
pub use sockets::Pace;
pub use waiting_room::Entrance;
pub use watch::Watch;
pub use workers::Workers;
