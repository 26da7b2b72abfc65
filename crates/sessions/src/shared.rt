//! What all sessions of a database share.
ghost use Rattle.std.specs.Prelude.{◌≡◌, ◌<◌};

use crate::mailboxes::Mailboxes;
use commands::Config;
use job_queue::Queue;
use std::alloc::{AllocError, Global};
use std::sync::Mutex;
use updater_state::Opening;

/// The queue of jobs, the gate, the configuration, behind its lock what the updater holds, `C`, and where the
/// sessions learn what became of their jobs.
pub struct Shared<C: Drop, J: Opening, G: Drop> {
    pub(crate) queue: Queue<J>,
    pub(crate) gate: G,
    pub(crate) config: Config,
    pub(crate) core: Mutex<C>,
    pub(crate) mailboxes: Mailboxes<J>,
    pub(crate) ghost config_is: { config ≡ J.config },
}

impl<C: Drop, J: Opening, G: Drop> Drop for Shared<C, J, G> {
    fn drop(self) {
        let Shared {
            queue: _,
            gate: _,
            config: _,
            core: _,
            mailboxes: _,
        } = self;
    }
}

impl<C: Drop, J: Opening, G: Drop> Shared<C, J, G> {
    /// What the sessions of the configuration share, with the updater's state behind its lock.
    pub fn new(
        alloc: Global,
        queue: Queue<J>,
        gate: G,
        config: Config,
        core: C,
    ) -> Result<Shared<C, J, G>, AllocError>
        requires { config ≡ J.config }
    {
        let mailboxes = Mailboxes::new(alloc, config.limits().sessions)?;
        Ok(Shared {
            queue,
            gate,
            config,
            core: Mutex::new(core),
            mailboxes,
        })
    }

    /// How often a compaction is tried.
    pub(crate) fn tries(&self) -> u16
        ensures { result ≡ J.config.tries }
    {
        self.config.limits().tries
    }

    /// How many documents a compaction copies, or takes over, at a time: one at least.
    pub(crate) fn slice(&self) -> u64
        ensures slice { result ≡ J.config.slice }
        ensures some { 0 < result }
    {
        self.config.limits().slice as u64
    }

    /// What the updater holds, behind its lock.
    pub fn core(&self) -> &Mutex<C> {
        &self.core
    }
}
