//! Where sessions learn what became of their jobs, apart from the updater's lock.

use crossbeam_utils::CachePadded;
use job_queue::Queue;
use std::alloc::{AllocError, Global};
use std::mem::replace;
use std::sync::atomic::AtomicBool;
use std::sync::atomic::Ordering::SeqCst;
use std::sync::{Mutex, Wait};
use updater_state::{Core, Opening, Told};

/// What is left for a session.
pub(crate) struct Mailbox<J: Opening> {
    /// Whether there is something. It is read first, so that a look into an empty mailbox writes nothing.
    is_full: AtomicBool,
    told: Mutex<Option<Told<J>>>,
}

impl<J: Opening> Drop for Mailbox<J> {
    fn drop(self) {
        let Mailbox {
            is_full: _,
            told: _,
        } = self;
    }
}

impl<J: Opening> Mailbox<J> {
    fn new() -> Mailbox<J> {
        Mailbox {
            is_full: AtomicBool::new(false),
            told: Mutex::new(None),
        }
    }

    /// What is there. Nothing, too, while something is being left.
    fn take(&self) -> Option<Told<J>> {
        if !self.is_full.load(SeqCst) {
            return None;
        }
        let mut inside = self.told.try_lock()?;
        self.is_full.store(false, SeqCst);
        inside.take()
    }

    fn leave<W: Wait>(&self, rt: &W, told: Told<J>) {
        let mut inside = self.told.lock(rt);
        let _older = replace(&mut *inside, Some(told));
        self.is_full.store(true, SeqCst);
    }
}

/// Of each session a mailbox. The holder of the updater's lock leaves there the session's outcome, and the
/// session takes it without that lock.
pub(crate) struct Mailboxes<J: Opening> {
    /// Sessions that wait look into theirs again and again, while others may be written to beside them.
    boxes: Vec<CachePadded<Mailbox<J>>>,
}

impl<J: Opening> Drop for Mailboxes<J> {
    fn drop(self) {
        let Mailboxes { boxes: _ } = self;
    }
}

impl<J: Opening> Mailboxes<J> {
    /// Those of so many sessions, with nothing in them.
    pub(crate) fn new(alloc: Global, sessions: u16) -> Result<Mailboxes<J>, AllocError> {
        let mut boxes = Vec::with_capacity(alloc, sessions as usize)?;
        for _made in 0..sessions {
            boxes.push(CachePadded::new(Mailbox::new()))?;
        }
        Ok(Mailboxes { boxes })
    }

    /// What was left for the session. Nothing, too, while something is being left.
    pub(crate) fn take(&self, session: u16) -> Option<Told<J>> {
        self.boxes.get(session as usize)?.take()
    }

    /// Leaves for each session whose job was popped, at most so many, what the updater knows of the job.
    pub(crate) fn leave_all<R: Wait + Drop, W: Wait>(
        &self,
        rt: &W,
        queue: &Queue<J>,
        core: &mut Core<R, J>,
        sessions: u16,
    ) {
        for _ in 0..sessions {
            let Some(session) = core.next_due() else {
                return;
            };
            if let Some(told) = core.tell(queue, session) {
                self.leave(rt, session, told);
            }
        }
    }

    fn leave<W: Wait>(&self, rt: &W, session: u16, told: Told<J>) {
        let Some(mailbox) = self.boxes.get(session as usize) else {
            return;
        };
        mailbox.leave(rt, told);
    }
}
