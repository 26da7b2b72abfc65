//! Sockets whose peers are given up in time.
//!
//! A [`TimedReader`] and a [`TimedWriter`] are the two ends of one socket. The reader waits so long for a
//! request, and for the rest of it once it has begun; the writer waits so long until a text is
//! taken ([`Pace`]). A flag ends the input early, between two requests. [`hang_up`] ends a connection after its
//! last response.
#![tactic(auto)]

mod closing;
mod deadlines;
mod flag;
mod pace;
mod reader;
mod timed;
mod writer;

pub use closing::{drain, hang_up};
pub use flag::is_set;
pub use pace::Pace;
pub use reader::TimedReader;
pub use timed::Timed;
pub use writer::TimedWriter;
