//! A journal: the dump of each epoch, appended to a file while its history grows, and read when a server starts.
//!
//! The file of an epoch is its dump and nothing else, so whoever audits dumps audits a journal. What is read of a file whose
//! last line was cut is the history whose dump the file begins with.
#![tactic(auto)]

mod appended;
mod beginning;
mod boot;
mod disk_file;
mod epochs;
mod fault;
mod finishing;
mod folder;
mod journal;
mod lines;
mod lock;
mod mark;
mod mark_file;
mod names;
mod next_line;
mod reading;
mod repair;
mod replayed;
mod restored;
pub mod scripted;
mod start_fault;
mod started;
pub mod surviving;

pub use appended::Appended;
pub use boot::BootId;
pub use disk_file::DiskFile;
pub use fault::JournalFault;
pub use folder::{Folder, FolderFault};
pub use journal::Journal;
pub use mark::Mark;
pub use reading::restore;
pub use repair::{Cut, Repaired};
pub use restored::{End, Raise, Restored, Unrestored};
pub use start_fault::StartFault;
pub use started::{Access, Begun, Dropped, Started};
pub use streams::Failed;
