//! What was published, in order, and the two ends through which readers see the last of it.
#![tactic(auto)]

mod front;
mod published;
mod publisher;

pub use front::{Book, Front, Naming, Opened};
pub use published::{Published, Shown};
pub use publisher::{Publisher, Reader};
