//! The target of a request: its path, decoded segment by segment, the parameters of its query string, and the route
//! that the path leads to, with the methods that it takes.
#![tactic(auto)]

pub mod query;
mod routes;
pub mod segment;
mod target;
pub mod value;

pub use routes::{Method, Route, Routes};
pub use target::{last_segment, split_target};
