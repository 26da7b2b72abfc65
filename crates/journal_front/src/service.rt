//! How a database is served whose history a journal keeps.

use crate::policy::SyncPolicy;
use http_workers::{Entrance, Terms};

/// How a database is served whose history a journal keeps.
#[derive(Drop)]
pub struct Service<'s, L> {
    /// Where connections come to.
    pub entrance: &'s Entrance,
    /// How many workers there are, 1 to 63: the keeper has a session too.
    pub workers: u16,
    /// The most entries of an epoch.
    pub max_places: u32,
    /// How connections are served.
    pub terms: Terms<'s>,
    /// When the journal is synced.
    pub policy: SyncPolicy,
    /// What is said on standard error.
    pub notices: &'s L,
}
