//! The state behind the updater's lock.
ghost use Rattle.std.specs.Prelude.{◌≡◌, ◌↔◌, ◌+◌, ◌-◌, ◌<◌, ◌≤◌, [], Ok, Err, None, length, replicate, IfOk, OnErr, OnOk};
ghost use Rattle.model.specs.World.{Put, GiveUp};
ghost use Rattle.version_log.specs.Histories.{newest};
ghost use Rattle.updater_state.specs.Outcomes.{outcome_of};
ghost use Rattle.updater_state.specs.State.{Puts, after_taking, GivesUpBatch};
ghost use Rattle.updater_state.specs.Worlds.{IsEvent};
ghost use Rattle.updater_state.specs.declared.fault.PutFault.TheVariants.{Full};

use crate::draft::{Draft, answer_all};
use crate::fault::PutFault;
use crate::naming::Opening;
use crate::outcome::Outcome;
use crate::outcomes::{Outcomes, give_up_all, no_outcomes, take};
use crate::publication::{publish, put_in_place};
use commands::{Config, Job};
use job_queue::Consumer;
use std::alloc::{AllocError, Global};
use std::marker::Model;
use std::sync::Wait;
use version_log::{Book, Published, Publisher};

/// What the updater holds: the version that was published last, the batch that comes next, and of each
/// session what became of its last job.
pub struct Core<R: Wait + Drop, J: Opening> {
    pub(crate) alloc: Global,
    pub(crate) gather: u16,
    pub(crate) slack: u16,
    max_places: u32,
    pub(crate) book: Book<J>,
    pub(crate) current: Published<J>,
    pub(crate) batch: Vec<Job>,
    pub(crate) outcomes: Outcomes<J>,
    pub(crate) consumer: Consumer<J>,
    publisher: Publisher<R, J>,
    /// The room that drafts take. Between two calls there are none: a draft would keep its version.
    drafts: Vec<Draft>,
    /// Sessions whose jobs were popped, and that `next_due` has not yet returned. There is room for each session once.
    pub(crate) due: Vec<u16>,
}

impl<R: Wait + Drop, J: Opening> Drop for Core<R, J> {
    fn drop(self) {
        let Core {
            alloc: _,
            gather: _,
            slack: _,
            max_places: _,
            book: _,
            current: _,
            batch: _,
            outcomes: _,
            consumer: _,
            publisher: _,
            drafts: _,
            due: _,
        } = self;
    }
}

impl<R: Wait + Drop, J: Opening> Model for Core<R, J> {
    ghost use Rattle.std.specs.Coded.{codes};
    ghost use Rattle.model.specs.JsonCode.{coded_members};
    ghost use Rattle.std.specs.Prelude.{◌≡◌, ◌<◌, ◌≤◌, [], All, length, vec_capacity};
    ghost use Rattle.model.specs.History.{replay, base_of};
    ghost use Rattle.version_log.specs.Histories.{newest};
    ghost use Rattle.updater.specs.Batches.{MayFollow};
    ghost use Rattle.updater_state.specs.State.{State, coded_state};

    ghost Value = { State };

    ghost coded = { coded_state (Prim.hlevel (codes, coded_members)) (Prim.hlevel (codes, coded_members)) (Prim.hlevel (codes, coded_members)) };

    ghost view = { λ c. record { published = c.current; popped = c.consumer.taken; batch = c.batch.items; outcomes = c.outcomes.items } };

    ghost invariant = { λ c. (c.max_places ≡ J.config.max_places) × (c.gather ≤ vec_capacity c.batch) × (c.consumer.made ≤ length c.outcomes.items) × (length (newest c.current) ≤ J.config.max_places)
        × MayFollow (replay (base_of J.base) (newest c.current)) c.batch.items × (c.gather ≡ J.config.gather) × (c.slack ≡ J.config.slack)
        × (c.drafts.items ≡ []) × (c.consumer.made ≤ J.config.sessions) × All (λ s. s < J.config.sessions) c.due.items };
}

impl<R: Wait + Drop, J: Opening> Core<R, J> {
    /// The state before any job. It has room for a batch and its drafts, for an outcome of each session, and
    /// for each session once that is due.
    pub fn new(
        alloc: Global,
        config: Config,
        book: Book<J>,
        current: Published<J>,
        consumer: Consumer<J>,
        publisher: Publisher<R, J>,
    ) -> Result<Core<R, J>, AllocError>
        requires config { config ≡ J.config }
        requires sessions { consumer.made ≤ config.sessions }
        requires few { length (newest current) ≤ J.config.max_places }
        ensures { IfOk result (λ core. core ≡ record { published = current; popped = consumer.taken; batch = []; outcomes = replicate config.sessions None }) }
    {
        let limits = config.limits();
        let batch = Vec::with_capacity(alloc, limits.gather as usize)?;
        let outcomes = no_outcomes(alloc, limits.sessions)?;
        let drafts = Vec::with_capacity(alloc, limits.gather as usize)?;
        let due = Vec::with_capacity(alloc, limits.sessions as usize)?;
        Ok(Core {
            alloc,
            gather: limits.gather,
            slack: limits.slack,
            max_places: limits.max_places,
            book,
            current,
            batch,
            outcomes,
            consumer,
            publisher,
            drafts,
            due,
        })
    }

    /// The version that was published last.
    pub fn current(&self) -> &Published<J>
        ensures { result.now ≡ self.now.published }
    {
        &self.current
    }

    /// How many entries the history may still gain.
    pub(crate) fn room(&self) -> u64
        ensures { result ≡ J.config.max_places - length (newest self.now.published) }
    {
        let places = self.current.version().place();
        (self.max_places as u64).saturating_sub(places)
    }

    /// Publishes the batch, where it is not empty: the history gains its entries, in its order, with one
    /// publication, and each of its jobs is answered. A batch past the last place, or one for which
    /// memory is refused, stays.
    ///
    /// All that grows, grows before the entries are added.
    pub fn put(&mut self) -> Result<(), PutFault>
        ensures empty { self.old.batch ≡ [] → (result ≡ Ok tt) × (self.new ≡ self.old) }
        ensures put { OnOk result (0 < length self.old.batch → Puts J.base J.config.max_places self.old self.new) }
        ensures kept { OnErr result (self.new ≡ self.old) }
        ensures event { OnOk result (IsEvent J.base J.config Put self.old self.new) }
        ensures full { 0 < length self.old.batch → (result ≡ Err Full) ↔ (J.config.max_places < length (newest self.old.published) + length self.old.batch) }
    {
        if self.batch.is_empty() {
            return Ok(());
        }
        if self.batch.len() as u64 > self.room() {
            return Err(PutFault::Full);
        }
        let Ok(found) = publish(
            self.alloc,
            &self.book,
            &self.current,
            self.batch.as_slice(),
            &mut self.drafts,
        ) else {
            self.drafts.clear();
            return Err(PutFault::Memory);
        };
        answer_all(&mut self.outcomes, &mut self.drafts, found.front());
        put_in_place(&mut self.current, found);
        self.batch.clear();
        Ok(())
    }

    /// Gives up the batch, with no entry: each of its jobs is answered that memory was refused, or that no place is
    /// left. It takes no memory.
    pub fn give_up(&mut self)
        ensures given_up { GivesUpBatch J.config.max_places self.old self.new }
        ensures event { IsEvent J.base J.config GiveUp self.old self.new }
    {
        let is_full = self.current.version().place() == self.max_places as u64;
        give_up_all(
            &mut self.outcomes,
            self.batch.as_slice(),
            &self.current,
            is_full,
        );
        self.batch.clear();
    }

    /// Shows readers the version that was published last.
    pub fn show(&mut self) -> Result<(), AllocError>
        ensures { self.new ≡ self.old }
    {
        self.publisher.show(&self.current)
    }

    /// Takes what became of the session's last popped job, where that is known and was not yet taken.
    pub fn take_outcome(&mut self, session: u16) -> Option<Outcome<J>>
        ensures outcome { result ≡ outcome_of self.old.outcomes session }
        ensures taken { self.new ≡ after_taking self.old session }
    {
        take(&mut self.outcomes, session)
    }
}
