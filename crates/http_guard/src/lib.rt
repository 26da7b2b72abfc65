//! Connections whose requests are decided by a policy before a service answers them.
//!
//! [`serve`] is what `http_connection::serve` is, but that each request is judged by its head first. One that passes is answered
//! by the service, with the lines that a browser wants where a page made it; one that doesn't is answered here, and the service
//! hears nothing of it.
#![tactic(auto)]

mod extended;
mod lines;
mod notes;
mod passing;
mod places;
mod turns;

pub use notes::Notes;
pub use turns::serve;
