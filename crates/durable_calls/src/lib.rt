//! Calls of a session whose entries a journal keeps.
//!
//! A [`KeptPlace`] says up to which place a journal has its entries, up to which of them a sync has covered, and up to which number
//! updates may be shown. A [`Durable`] session answers a call once that covers what the call shows. Where it doesn't yet, the session
//! itself makes a pass of the journal, or waits for the end of the pass that another session makes: so one append and one sync serve
//! all that wait, and no other thread has to run for them.
//!
//! Each session has a [`Progress`], by which it knows entries that the journal has. All who know of one journal know of beginnings of
//! one history.
#![tactic(auto)]

mod durable;
mod gathering;
mod keeping;
mod kept_place;
mod passes;

pub use durable::Durable;
pub use keeping::{FailureOf, Progress};
pub use kept_place::{KeptPlace, NotShown};
pub use passes::{Pass, Passes};
