//! A log of requests: a line for each.
//!
//! A [`Log`] is told when the response to a request begins and when it ends. What is written in between it
//! sees through [`Watched`], a sink over any sink, which takes what that takes; so what is proved of a
//! connection holds of one whose requests are logged.
#![tactic(auto)]

mod head;
mod line;
mod log;
mod seen;
mod seldom;
mod watched;

pub use line::{Line, line_text};
pub use log::{Lines, Log};
pub use seen::Seen;
pub use seldom::OncePerSecond;
pub use watched::Watched;
