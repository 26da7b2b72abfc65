//! What ends all calls of a database.
ghost use Rattle.std.specs.Prelude.{◌≡◌, ◌≤◌, length};
ghost use Rattle.version_log.specs.Histories.{Grows};
ghost use Rattle.history_lock.specs.Ending as ending;

use crate::closed::Closed;
use crate::closing::{last_of_all, lost_of};
use sessions::{Ended, Session, Shared};
use std::alloc::{AllocError, Global};
use std::marker::Model;
use std::sync::{Arc, Wait};
use updater_state::{Core, Opening};
use version_log::Published;

/// What ends all calls of a database. It keeps the room that the end takes.
pub struct Master<C: Drop, J: Opening, G: Drop> {
    shared: Arc<Shared<C, J, G>, Global>,
    first: Published<J>,
    ended: Vec<Ended<J>>,
    lost: Vec<u16>,
}

impl<C: Drop, J: Opening, G: Drop> Drop for Master<C, J, G> {
    fn drop(self) {
        let Master {
            shared: _,
            first: _,
            ended: _,
            lost: _,
        } = self;
    }
}

impl<C: Drop, J: Opening, G: Drop> Model for Master<C, J, G> {
    ghost use Rattle.std.specs.Prelude.{◌≡◌, ◌≤◌, [], vec_capacity};

    ghost Value = { Unit {0} };

    ghost view = { λ m. tt };

    ghost invariant = { λ m. (m.ended.items ≡ []) × (J.sessions ≤ vec_capacity m.ended) × (m.lost.items ≡ []) × (J.sessions ≤ vec_capacity m.lost) };
}

impl<C: Drop, J: Opening, G: Drop> Master<C, J, G> {
    pub(crate) fn new(
        alloc: Global,
        shared: Arc<Shared<C, J, G>, Global>,
        first: Published<J>,
        sessions: u16,
    ) -> Result<Master<C, J, G>, AllocError>
        requires { sessions ≡ J.sessions }
    {
        let ended = Vec::with_capacity(alloc, sessions as usize)?;
        let lost = Vec::with_capacity(alloc, sessions as usize)?;
        Ok(Master {
            shared,
            first,
            ended,
            lost,
        })
    }
}

impl<R: Wait + Drop, J: Opening, G: Drop> Master<Core<R, J>, J, G> {
    /// The end, for all sessions of the database: the last version, and which sessions are lost. It
    /// waits for the updater's lock and takes no memory.
    pub fn close<W: Wait>(self, sessions: Vec<Session<Core<R, J>, J, G>>, rt: &W) -> Closed<J>
        requires all { length sessions.items ≤ J.sessions }
        ensures end { ending.Ends J.base sessions.items result }
    {
        let Master {
            shared,
            first,
            ended,
            lost,
        } = self;
        let current = current_or(rt, &*shared, first);
        let (last, ended) = last_of_all(current, sessions, ended);
        let lost = lost_of(&last, ended.as_slice(), lost);
        Closed::new(last, lost)
    }
}

/// What was published last; the one given, where a share is refused.
fn current_or<R: Wait + Drop, J: Opening, G: Drop, W: Wait>(
    rt: &W,
    shared: &Shared<Core<R, J>, J, G>,
    first: Published<J>,
) -> Published<J>
    ensures { Grows J.base result }
{
    let core = shared.core().lock(rt);
    let Ok(current) = core.current().share() else {
        let _recalled = first.publication();
        return first;
    };
    let _recalled = current.publication();
    current
}
