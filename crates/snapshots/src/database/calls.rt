//! How many commands each session has made.
ghost use Rattle.std.specs.Prelude.{◌≡◌, IfOk, unwrap_or};
ghost use Rattle.model.specs.Map.{empty, from_list, get, put};
ghost use Rattle.model.specs.Command.{numbers};

use cow_index::CowMap;
use std::alloc::{AllocError, Global};
use std::marker::Model;
use std::mem;

/// A session, and how many commands it has made.
#[derive(Clone, Copy)]
pub(crate) struct Caller {
    pub(crate) session: u16,
    pub(crate) calls: u64,
}

/// How many commands each session has made, of those that have made any.
///
/// The session that made the last command is kept beside the map: where one makes many in a row, counting them takes
/// no memory. The map may have an older number of that session.
pub(crate) struct Calls {
    last: Option<Caller>,
    earlier: CowMap<u16, u64>,
}

impl Drop for Calls {
    fn drop(self) {
        let Calls {
            last: _,
            earlier: _,
        } = self;
    }
}

impl Model for Calls {
    ghost use Rattle.std.specs.Prelude.{ℕ};
    ghost use Rattle.model.specs.Map.{Map};
    ghost use Rattle.model.specs.Command.{numbers};
    ghost use Rattle.snapshots.specs.Calls.{calls_in};

    ghost Value = { Map numbers ℕ };

    ghost view = { λ c. calls_in c.last c.earlier.entries };
}

impl Calls {
    /// No session has made any.
    pub(crate) fn new(alloc: Global) -> Calls
        ensures { result ≡ empty }
    {
        Calls {
            last: None,
            earlier: CowMap::new(alloc),
        }
    }

    /// The same numbers. It takes no memory.
    pub(crate) fn share(&self) -> Result<Calls, AllocError>
        ensures { IfOk result (λ c. c ≡ self.now) }
    {
        Ok(Calls {
            last: self.last,
            earlier: self.earlier.share()?,
        })
    }

    /// How many commands the session has made.
    pub(crate) fn of(&self, session: u16) -> u64
        ensures { result ≡ unwrap_or (get self.now session) 0 }
    {
        let Some(last) = self.last else {
            return calls_among(&self.earlier, session);
        };
        if last.session == session {
            return last.calls;
        }
        calls_among(&self.earlier, session)
    }

    /// Gives the session that number of commands. Where memory is refused, the sessions before the last have none left.
    pub(crate) fn put(&mut self, alloc: Global, session: u16, calls: u64) -> Result<(), AllocError>
        ensures { IfOk result (λ _. self.new ≡ put self.old session calls) }
    {
        let caller = Caller { session, calls };
        let Some(last) = self.last else {
            self.last = Some(caller);
            return Ok(());
        };
        if last.session == session {
            self.last = Some(caller);
            return Ok(());
        }
        let earlier = mem::replace(&mut self.earlier, CowMap::new(alloc));
        self.earlier = earlier.into_with(last.session, last.calls)?;
        self.last = Some(caller);
        Ok(())
    }
}

/// How many commands the session has made, going by the map.
fn calls_among(earlier: &CowMap<u16, u64>, session: u16) -> u64
    ensures { result ≡ unwrap_or (get {O = numbers} (from_list earlier.now.entries) session) 0 }
{
    match earlier.get(&session) {
        Some(calls) => *calls,
        None => 0,
    }
}
