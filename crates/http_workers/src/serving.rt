//! Sessions that are lent to threads.
ghost use Rattle.session_api.specs.Known.{Known};
ghost use Rattle.session_api.specs.SessionCall.{SessionCall};
ghost use Rattle.http_workers.specs.Worker.{ServesUntil, ServesVisits};

use crate::accepting::accept_by_one;
use crate::listening::{Shared, Terms};
use crate::visiting::visit_by_one;
use crate::watch::Watch;
use http_turns::Setting;
use session_api::Calls;
use std::sync::Wait;
use std::sync::atomic::AtomicBool;
use std::time::Clock;
use waiting_room::WaitingRoom;

/// What serves connections on a thread of its own. It is each session, seen by what a thread has to know of one.
pub(crate) trait Serving<X> {
    /// By this call it goes from one state to another.
    ghost goes: { Self → SessionCall → Self → Type 0 };

    /// What it knows.
    ghost known: { Self → Known };

    /// Serves connections that its worker accepts.
    fn accept_connections<R: Wait + Clock, V: Watch>(
        &mut self,
        rt: &R,
        index: usize,
        terms: Terms<'_>,
        over: Option<&AtomicBool>,
        setting: &Setting<'_, X>,
        shared: &Shared<'_, '_, V>,
    )
        ensures { ServesUntil goes known setting.now over.entry terms.entry.connections self.old self.new };

    /// Serves connections of a room by visits.
    fn visit_connections<R: Wait + Clock, V: Watch>(
        &mut self,
        rt: &R,
        index: usize,
        terms: Terms<'_>,
        over: Option<&AtomicBool>,
        setting: &Setting<'_, X>,
        shared: &Shared<'_, '_, V>,
        room: &WaitingRoom<'_, u64>,
    )
        ensures { ServesVisits goes known setting.now self.old self.new };
}

impl<X, S: Calls<X>> Serving<X> for S {
    ghost goes = { S.goes };

    ghost known = { S.known };

    fn accept_connections<R: Wait + Clock, V: Watch>(
        &mut self,
        rt: &R,
        index: usize,
        terms: Terms<'_>,
        over: Option<&AtomicBool>,
        setting: &Setting<'_, X>,
        shared: &Shared<'_, '_, V>,
    ) {
        accept_by_one(rt, index, self, terms, over, setting, shared);
    }

    fn visit_connections<R: Wait + Clock, V: Watch>(
        &mut self,
        rt: &R,
        index: usize,
        terms: Terms<'_>,
        over: Option<&AtomicBool>,
        setting: &Setting<'_, X>,
        shared: &Shared<'_, '_, V>,
        room: &WaitingRoom<'_, u64>,
    ) {
        visit_by_one(rt, index, self, terms, over, setting, shared, room);
    }
}
