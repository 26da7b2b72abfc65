//! HTTP as a client speaks it to another database: the texts of its requests, and the responses that
//! come back.
//!
//! A request is one text: [`request_text`] makes it of a host, a method, a target and a body, and
//! [`changes_target`], [`filtered_changes_target`], [`open_revs_target`] and [`local_target`] make the
//! targets. Responses come one
//! after another from a source into an [`Incoming`], which reads each byte once and keeps what has come
//! of the next.
#![tactic(auto)]

mod front;
mod headers;
mod incoming;
pub mod laws;
mod request;
mod target;

pub use front::ResponseSpans;
pub use incoming::{Incoming, ResponseFault};
pub use request::{request_head, request_text};
pub use target::{
    SEGMENT, changes_target, filtered_changes_target, local_target, open_revs_target,
};
