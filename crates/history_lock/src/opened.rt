//! A database that has no name yet.
ghost use Rattle.std.specs.Prelude.{◌≡◌, ◌↔◌, [], None, Some, Err, IfOk};
ghost use Rattle.model.specs.History.{successor};
ghost use Rattle.history_lock.specs.Successors.{last_database, HasTooLargeNumbers};
ghost use Rattle.history_lock.specs.declared.fault.SuccessorFault.TheVariants.{NumbersTooLarge};

use crate::closed::Closed;
use crate::fault::SuccessorFault;
use commands::Config;
use snapshots::Version;
use std::alloc::{AllocError, Global};
use std::marker::Model;
use updater_state::Opening;

/// A database that has no name yet: its book of publications, its version of no entries and its queue. Contracts
/// see what names it, which a program picks as its `Opening`.
pub struct Opened {
    pub(crate) alloc: Global,
    pub(crate) config: Config,
    pub(crate) book: version_log::Opened,
    pub(crate) empty: Version,
    pub(crate) queue: job_queue::Opened,
}

impl Model for Opened {
    ghost use Rattle.std.specs.Prelude.{◌≡◌, []};
    ghost use Rattle.std.specs.Coded.{codes};
    ghost use Rattle.model.specs.JsonCode.{coded_members};
    ghost use Rattle.history_lock.specs.Names.{Names, coded_names};

    ghost Value = { Names };

    ghost coded = { coded_names (Prim.hlevel (codes, coded_members)) (Prim.hlevel (codes, coded_members)) };

    ghost view = { λ o. record { book = o.book; base = o.empty.base; table = o.queue.table; config = o.config } };

    ghost invariant = { λ o. (o.queue.capacity ≡ o.config.queue) × (o.queue.sessions ≡ o.config.sessions) × (o.empty.entries ≡ []) };
}

impl Opened {
    /// What a database of this configuration has before its name, in its first epoch.
    pub fn new(alloc: Global, config: Config) -> Result<Opened, AllocError>
        ensures base { IfOk result (λ o. o.base ≡ None) }
        ensures config { IfOk result (λ o. o.config ≡ config) }
    {
        Opened::over(alloc, config, Version::empty(alloc))
    }

    /// What a successor of a closed database has before its name: no entries, over the last database of the closed one, in
    /// which no session has called. The closed one stays as it is. It may have several successors, which share nothing
    /// that changes.
    ///
    /// # Errors
    ///
    /// [`SuccessorFault::NumbersTooLarge`] exactly where the last update number or purge number is above
    /// 4611686018427387904, and [`SuccessorFault::Memory`] where memory was refused.
    pub fn after<J: Opening>(
        alloc: Global,
        config: Config,
        closed: &Closed<J>,
    ) -> Result<Opened, SuccessorFault>
        ensures base { IfOk result (λ o. o.base ≡ Some (successor (last_database J.base closed.now))) }
        ensures config { IfOk result (λ o. o.config ≡ config) }
        ensures too_large { (result ≡ Err NumbersTooLarge) ↔ HasTooLargeNumbers (last_database J.base closed.now) }
    {
        let last = closed.version();
        if !last.has_successor() {
            return Err(SuccessorFault::NumbersTooLarge);
        }
        let empty = last.successor()?;
        Ok(Opened::over(alloc, config, empty)?)
    }

    /// What a database over the base of a version of no entries has before its name.
    pub fn over(alloc: Global, config: Config, empty: Version) -> Result<Opened, AllocError>
        requires empty { empty.entries ≡ [] }
        ensures base { IfOk result (λ o. o.base ≡ empty.base) }
        ensures config { IfOk result (λ o. o.config ≡ config) }
    {
        let limits = config.limits();
        let queue = job_queue::Opened::new(alloc, limits.queue, limits.sessions)?;
        Ok(Opened {
            alloc,
            config,
            book: version_log::Opened::new(),
            empty,
            queue,
        })
    }
}
