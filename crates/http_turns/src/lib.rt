//! The connections of a session.
//!
//! [`serve`] answers the requests of a connection by the calls of a session, whatever that is ([`Calls`]): what the session did for
//! each response, and no other call, is in its contract. [`Lent`] is what answers them, for who serves connections in other ways.
//!
//! [`Calls`]: session_api::Calls
#![tactic(auto)]

mod connection;
mod failing;
mod feed;
mod progress;
mod reading;
mod reserve;
mod response;
mod setting;
mod turn;
mod waiting;
mod writing;

pub use connection::{Borrows, Lent, serve, serve_by};
pub use setting::Setting;
