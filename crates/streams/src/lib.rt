//! Where the bytes of a connection come from and go to.
//!
//! A [`Source`] and a [`Sink`] count their failures, so that what ended a connection can be known
//! from them, and show contracts which bytes they gave and took where those are known.
#![tactic(auto)]

mod counted;
mod ends;
mod reads;
pub mod scripted;
mod traits;
mod writes;

pub use counted::{Stream, read_uninterrupted, write_uninterrupted};
pub use ends::end_with;
pub use reads::read_behind;
pub use traits::{Failed, Sink, Source};
pub use writes::{write_all, write_both, write_next};
