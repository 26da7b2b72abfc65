//! Which pages may use a server: those of the origins that its operator allows, by the names that he allows.
//!
//! A browser adds what page it asks for to each request that a page makes of another server: `Origin`, `Sec-Fetch-Site`, and
//! in `Host` the name by which the page reached it. [`judge`] decides from them, before anything else is read of a request, and
//! [`write_forbidden`] and
//! [`write_preflight`] write what the server answers by itself. [`ALLOW`], the origin and [`ALLOWED`] are what it adds to its other
//! answers to a page.
#![tactic(auto)]

mod answers;
mod headers;
mod judging;
mod policy;

pub use answers::{ALLOW, ALLOWED, write_forbidden, write_preflight};
pub use judging::{Forbidden, Verdict, judge};
pub use policy::{Allowed, Policy};
