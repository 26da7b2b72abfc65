//! Serving the requests of a connection, from a source to a sink.
//!
//! [`serve`] cuts what it reads into requests and has a [`Service`] answer each of them as soon as
//! it is whole, in order.
#![tactic(auto)]

mod answering;
mod outcome;
mod turns;
mod window;

pub use answering::Service;
pub use outcome::{Cause, Ended};
pub use turns::serve;
pub use window::Window;
