//! Another database, reached over HTTP, as one end of a replication.
//!
//! An [`HttpPeer`] writes each call as a request to a sink, and reads the answer from the response that comes from a
//! source. The texts of requests and what responses say are functions of their own; `specs/` says of each call
//! which request it is, byte by byte, and what its response means.
#![tactic(auto)]

mod ahead;
mod answers;
mod asks;
mod laws;
mod peer;
mod poll;
mod requests;
mod state;
mod told;

pub use laws::{answers_are_in_order, answers_are_of_the_input, bulk_is_as_measured};
pub use peer::HttpPeer;
pub use poll::wait_for_changes;
pub use state::State;
