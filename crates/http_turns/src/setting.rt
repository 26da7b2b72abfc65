//! What serves connections beside a session.
ghost use Rattle.std.specs.Prelude.{◌≡◌, IfOk};

use crate::reserve::Reserve;
use http_routing::Routes;
use std::alloc::{AllocError, Global};
use std::marker::Model;

/// What serves connections beside a session. Contracts see how often a wait for changes looks.
#[derive(Drop)]
pub struct Setting<'c, X> {
    pub(crate) alloc: Global,
    pub(crate) routes: Routes,
    pub(crate) context: &'c X,
    pub(crate) turns: u64,
    pub(crate) reserve: Reserve,
}

impl<'c, X> Model for Setting<'c, X> {
    ghost use Rattle.std.specs.Prelude.{ℕ};

    ghost Value = { ℕ };

    ghost view = { λ s. s.turns };
}

impl<'c, X> Setting<'c, X> {
    /// Builds the routes, and takes the memory that is kept back for reads. Calls that wait do so by the context, and a wait for changes looks at most
    /// so many times.
    pub fn new(alloc: Global, context: &'c X, turns: u64) -> Result<Setting<'c, X>, AllocError>
        ensures turns { IfOk result (λ setting. setting ≡ turns) }
    {
        Ok(Setting {
            alloc,
            routes: Routes::new(alloc)?,
            context,
            turns,
            reserve: Reserve::new(alloc)?,
        })
    }

    /// Where the memory of connections comes from.
    pub fn alloc(&self) -> Global {
        self.alloc
    }
}
