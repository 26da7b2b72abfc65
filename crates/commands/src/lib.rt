//! What a session asks to be done and what it is replied, as plain data: contracts see it as the
//! model's commands and replies.
#![tactic(auto)]

mod command;
mod config;
mod copied;
mod edit;
mod entry;
mod merge;
mod named;
mod reply;
mod same;
mod seat;
mod short_list;

pub use command::{Command, CommandKind, MAX_EDITS};
pub use config::{Config, Limits, MAX_PLACES};
pub use copied::{Copied, copy_all};
pub use edit::Edit;
pub use entry::{Entry, Job};
pub use merge::Merge;
pub use named::{AskedRevisions, NamedRevisions};
pub use reply::{Reply, ReplyKind};
pub use seat::Seat;
pub use short_list::ShortList;
