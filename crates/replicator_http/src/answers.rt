//! What the answers of another database say: its changes, the revisions that it lacks, documents with
//! their paths, what became of a bulk, and how far a replication had come.
//!
//! An answer is JSON of the profile, read as a request's body is: what is not as its form asks is
//! refused with the reason, and members that nobody asked for are ignored. What `api_json` and
//! `document_json` write is read back as it was.
mod bulk;
mod changes;
mod checkpoint;
mod differences;
mod members;
mod opened;

pub use bulk::read_all_taken;
pub use changes::read_changes;
pub use checkpoint::{read_checkpoint, read_written_counter};
pub use differences::read_differences;
pub use opened::read_opened;
