//! Commands that wait, and the batch that is taken of them.
ghost use Rattle.std.specs.Prelude.{◌≡◌, ◌≤◌, ◌&&◌, not, nat_lt, length, take, drop, OnOk, OnErr, vec_len, vec_capacity};
ghost use Rattle.std.specs.VecDeque.{deque_len};
ghost use Rattle.model.specs.World.{Ask, Take, free_in, is_compact};
ghost use Rattle.machine.specs.States.{stepped};

use crate::machine::Machine;
use crate::views::{is_free, set_free};
use commands::{Command, Copied, Job, Seat};
use std::alloc::AllocError;
use std::collections::VecDeque;

/// The jobs that wait longest go into the batch, so many.
fn take_jobs(waiting: &mut VecDeque<Job>, batch: &mut Vec<Job>, n: usize)
    requires there { n ≤ deque_len waiting.old }
    requires empty { vec_len batch.old ≡ 0 }
    requires room { n ≤ vec_capacity batch.old }
    ensures batch { batch.new.items ≡ take n waiting.old.items }
    ensures waiting { waiting.new.items ≡ drop n waiting.old.items }
{
    for _taken in 0..n {
        let Some(job) = waiting.pop_front() else {
            unreachable!()
        };
        batch.push_reserved(job);
    }
}

impl Machine {
    /// Whether the command may join the jobs that wait: the session is free, there is room, and it is no
    /// compaction.
    fn may_ask(&self, session: u16, command: &Command) -> bool
        ensures { result ≡ (free_in self.now.world.views session && not (is_compact command.now) && nat_lt (length self.now.world.waiting) self.now.config.queue) }
    {
        let limits = self.config.limits();
        is_free(&self.views, session)
            && !command.is_compaction()
            && self.waiting.len() < limits.queue as usize
    }

    /// The session's command goes last among the jobs that wait, where it may.
    pub(crate) fn ask(&mut self, session: u16, command: &Command) -> Result<(), AllocError>
        ensures stepped { OnOk result (self.new ≡ stepped self.old (Ask session command.now)) }
        ensures kept { OnErr result (self.new ≡ self.old) }
    {
        if !self.may_ask(session, command) {
            return Ok(());
        }
        let Some(seat) = Seat::new(session, self.version.next_call(session)) else {
            unreachable!()
        };
        let command = command.copy(self.alloc)?;
        self.waiting.push_back(Job { seat, command })?;
        set_free(&mut self.views, session, false);
        Ok(())
    }

    /// The jobs that wait longest become the batch, at most `n`, where there is none.
    pub(crate) fn take(&mut self, n: u64) -> Result<(), AllocError>
        ensures stepped { OnOk result (self.new ≡ stepped self.old (Take n)) }
        ensures kept { OnErr result (self.new ≡ self.old) }
    {
        if !self.batch.is_empty() {
            return Ok(());
        }
        let limits = self.config.limits();
        let n = n.min(limits.gather as u64) as usize;
        let n = n.min(self.waiting.len());
        self.batch.reserve(n)?;
        take_jobs(&mut self.waiting, &mut self.batch, n);
        Ok(())
    }
}
