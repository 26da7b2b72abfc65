//! What is asked of another database to replicate with it, as the texts of eight requests: its changes,
//! or those of some documents, the next change, which revisions it lacks, revisions of a document, a bulk of them, and a
//! checkpoint, to be read and to be written.
//!
//! Each is the request that a server reads as that call: `specs/` says it byte by byte.
mod apart;
mod bulk;
mod difference;
mod filtered;
mod local;
mod poll;
mod reads;

pub use apart::Apart;
pub use bulk::bulk_request;
pub use difference::diff_request;
pub use filtered::filtered_changes_request;
pub use local::{local_get_request, local_put_request};
pub use poll::poll_request;
pub use reads::{changes_request, open_revs_request};
