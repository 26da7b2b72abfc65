//! What a request asks of the database, or why it is rejected.
//!
//! The checks of a request are made in one order: route, method, path, parameters, and then the
//! body. `decide`, in `specs/Decide.antt`, has them from top to bottom for each route.
#![tactic(auto)]

mod asked;
mod changes;
mod extent;
mod feed;
mod identity;
pub mod laws;
mod local;
mod opened;
mod parameter;
mod read;
mod rejection;

pub use asked::{Asked, Form};
pub use changes::{ChangesAsked, Feed, Since};
pub use extent::{Extent, extent_of};
pub use read::read_request;
pub use rejection::Rejection;
