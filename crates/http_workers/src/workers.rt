//! What the workers of a server have in common.

use crate::buffers::Buffers;
use crate::faults::Faults;
use crate::listening::Terms;
use crate::noticing::Noticing;
use crate::room::Room;
use crate::watch::Watch;
use std::alloc::{AllocError, Global};
use std::sync::{Mutex, Wait};
use std::thread::Threads;
use std::time::{Clock, Duration};
use std::{io, thread};
use waiting_room::Reports;

/// After so many seconds memory that was refused is asked for again.
const RETRY_SECONDS: u64 = 1;

/// The workers of a server: what one of them keeps, and who hears of them.
///
/// What one worker keeps is taken before any starts, and kept when one ends. So a server that can start has a
/// worker that serves, whatever memory is refused later.
#[derive(Drop)]
pub struct Workers<'w, V> {
    watch: &'w V,
    faults: Faults,
    spare: Mutex<Option<Buffers>>,
}

impl<'w, V: Watch> Workers<'w, V> {
    /// So many workers, where they can start: there is memory for what one keeps, which is taken, and, where there are to
    /// be several, a thread can be made besides the caller's. Where they can't, that is said.
    pub fn new<R: Threads>(
        rt: &R,
        alloc: Global,
        asked: u16,
        watch: &'w V,
    ) -> Option<Workers<'w, V>> {
        let Some(spare) = start(rt, alloc, asked) else {
            watch.few_workers(0, asked as u64);
            return None;
        };
        Some(Workers {
            watch,
            faults: Faults::new(),
            spare: Mutex::new(Some(spare)),
        })
    }

    /// What the operator hears of the worker at this index.
    pub(crate) fn noticing<'n, R: Clock>(
        &'n self,
        clock: &'n R,
        room: &'n Room,
        terms: Terms<'n>,
        index: usize,
    ) -> Noticing<'n, R, V> {
        let number = (index as u64).saturating_add(1);
        Noticing {
            clock,
            watch: self.watch,
            faults: &self.faults,
            room,
            logged_as: terms.log.then_some(number),
            policy: terms.policy,
        }
    }

    /// What the operator hears of connections that are not accepted.
    pub(crate) fn reports<'n, R>(&'n self, clock: &'n R) -> Refusals<'n, R, V> {
        Refusals {
            clock,
            watch: self.watch,
            faults: &self.faults,
        }
    }

    /// Says that connections that wait hold workers.
    pub(crate) fn say_no_event_loop(&self) {
        self.watch.no_event_loop();
    }

    /// Says how many serve, fewer than were asked for.
    pub(crate) fn report(&self, serving: u64, asked: u64) {
        self.watch.few_workers(serving, asked);
    }

    /// What a worker keeps: the spare one, where no other worker has it, or memory that is there.
    ///
    /// # Errors
    ///
    /// Memory was refused.
    pub(crate) fn buffers(&self, alloc: Global) -> Result<Buffers, AllocError> {
        match self.take_spare() {
            Some(buffers) => Ok(buffers),
            None => Buffers::new(alloc),
        }
    }

    /// The same, as soon as it is there. That it isn't yet is said.
    pub(crate) fn wait_for_buffers<R: Wait + Clock>(&self, rt: &R, alloc: Global) -> Buffers {
        for _ in rt.forever() {
            self.faults.no_memory(rt, self.watch);
            thread::sleep(rt, Duration::from_secs(RETRY_SECONDS));
            if let Ok(buffers) = self.buffers(alloc) {
                return buffers;
            }
        }
        unreachable!()
    }

    fn take_spare(&self) -> Option<Buffers> {
        let mut spare = self.spare.try_lock()?;
        spare.take()
    }

    /// Keeps as the spare one what a worker had that ends.
    pub(crate) fn give_back(&self, buffers: Buffers) {
        if let Some(mut spare) = self.spare.try_lock() {
            *spare = Some(buffers);
        }
    }
}

/// What the operator hears of connections that are not accepted.
#[derive(Drop)]
pub(crate) struct Refusals<'n, R, V> {
    clock: &'n R,
    watch: &'n V,
    faults: &'n Faults,
}

impl<R: Clock, V: Watch> Reports for Refusals<'_, R, V> {
    fn accept_failed(&self, error: &io::Error) {
        self.faults.accept_failed(self.clock, self.watch, error);
    }

    fn full(&self, clients: u32) {
        self.faults.clients_full(self.clock, self.watch, clients);
    }

    fn failed(&self, error: &io::Error) {
        self.watch.event_loop_failed(error);
    }
}

/// Takes what a worker keeps, where as many as are asked for can start.
fn start<R: Threads>(rt: &R, alloc: Global, asked: u16) -> Option<Buffers> {
    let buffers = Buffers::new(alloc).ok()?;
    if asked > 1 {
        let other = thread::spawn(rt, || ()).ok()?;
        other.join(rt);
    }
    Some(buffers)
}
