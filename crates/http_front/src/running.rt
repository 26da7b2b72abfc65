//! A database that is open, with what serves it.
ghost use Rattle.std.specs.Prelude.{◌≡◌, ◌≤◌, [], length, map, vec_capacity, IfSome};
ghost use Rattle.std.specs.List.{range_with_len};
ghost use Rattle.history_lock.specs.Ending.{Ends};
ghost use Rattle.history_lock.specs.Names.{IsNamed};
ghost use Rattle.sessions.specs.Known.{fresh};

use history_lock::{Closed, Master, Opened, open};
use http_turns::Setting;
use session_calls::{SharedSession, all_sessions, all_shared};
use sessions::Session;
use std::alloc::Global;
use std::sync::Wait;
use updater_state::{Core, NoGate, Opening};

/// What serves the sessions of a database that is open, and ends all its calls.
pub struct Running<'c, R: Wait + Drop, J: Opening, X> {
    pub master: Master<Core<R, J>, J, NoGate>,
    /// Room for the sessions as they end.
    pub room: Vec<Session<Core<R, J>, J, NoGate>>,
    /// In which the sessions serve connections.
    pub setting: Setting<'c, X>,
}

impl<R: Wait + Drop, J: Opening, X> Drop for Running<'_, R, J, X> {
    fn drop(self) {
        let Running {
            master: _,
            room: _,
            setting: _,
        } = self;
    }
}

impl<'c, R: Wait + Drop, J: Opening, X> Running<'c, R, J, X> {
    /// Opens a database, whose writer keeps a runtime of its own, and answers its sessions beside what serves them. Calls that wait do so by
    /// the context, and a wait for changes looks at most so many times. Nothing where the database was not opened, or memory for
    /// the routes was refused.
    pub fn start(
        alloc: Global,
        writer_rt: R,
        opened: Opened,
        context: &'c X,
        turns: u64,
    ) -> Option<
        (
            Running<'c, R, J, X>,
            Vec<SharedSession<Core<R, J>, J, NoGate>>,
        ),
    >
        requires named { IsNamed J.book J.base J.table J.capacity J.sessions J.config opened }
        ensures sessions { IfSome result (λ started. started.1.items
            ≡ map fresh (range_with_len 0 opened.config.sessions)) }
        ensures room { IfSome result (λ started. (started.0.room.items ≡ [])
            × (length started.1.items ≤ vec_capacity started.0.room)) }
        ensures turns { IfSome result (λ started. started.0.setting ≡ turns) }
    {
        let Ok((master, sessions)) = open::<R, J, NoGate>(writer_rt, opened, NoGate) else {
            return None;
        };
        let Ok(room) = Vec::with_capacity(alloc, sessions.len()) else {
            return None;
        };
        let Ok(sessions) = all_shared(alloc, sessions) else {
            return None;
        };
        let Ok(setting) = Setting::new(alloc, context, turns) else {
            return None;
        };
        let running = Running {
            master,
            room,
            setting,
        };
        Some((running, sessions))
    }

    /// Ends all calls of the database, whose sessions these are.
    pub fn end<W: Wait>(
        self,
        sessions: Vec<SharedSession<Core<R, J>, J, NoGate>>,
        rt: &W,
    ) -> Closed<J>
        requires all { length sessions.items ≤ J.sessions }
        requires room { (self.room.items ≡ []) × (length sessions.items ≤ vec_capacity self.room) }
        ensures end { Ends J.base sessions.items result }
    {
        let Running {
            master,
            room,
            setting: _,
        } = self;
        master.close(all_sessions(sessions, room), rt)
    }
}
