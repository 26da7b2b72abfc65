//! Changes of the tree of a document's revisions.
#![tactic(auto)]

mod fault;
mod grafts;
mod matches;
mod reach;
mod removed;
mod restrict;
mod stems;
mod strips;
mod unchanged;
mod written;

pub use fault::MergeFault;
pub use grafts::graft;
pub use matches::{has_alone, is_same};
pub use removed::removed_leaves;
pub use stems::{cut_leaves, stem};
pub use strips::strip;
pub use unchanged::is_written;
pub use written::with_path;
