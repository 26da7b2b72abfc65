//! The machine, and what one event does.
ghost use Rattle.std.specs.Prelude.{◌≡◌, ◌≢◌, ◌⊎◌, ◌+◌, ◌<◌, ◌≤◌, ◌++◌, [], None, Some, length, map, IfOk, OnOk, OnErr};
ghost use Rattle.model.specs.History.{base_of, now, largest_base, successor, batch_entries};
ghost use Rattle.model.specs.World as model;
ghost use Rattle.machine.specs.Events.{event_of, completed_of};
ghost use Rattle.machine.specs.States.{start_state, stepped};

use crate::completed::Completed;
use crate::copying::Copying;
use crate::event::Event;
use crate::record::Record;
use crate::views::{SessionView, first_views};
use commands::{Config, Job};
use snapshots::Version;
use std::alloc::{AllocError, Global};
use std::collections::VecDeque;
use std::marker::Model;

/// Sessions, an updater and a compactor in one thread. Contracts see its world, the base that the
/// history names, and the configuration.
///
/// The history is that of its version. A session's view and a compaction share versions with it.
#[derive(Drop)]
pub struct Machine {
    pub(crate) alloc: Global,
    pub(crate) config: Config,
    pub(crate) version: Version,
    pub(crate) waiting: VecDeque<Job>,
    pub(crate) batch: Vec<Job>,
    pub(crate) views: Vec<SessionView>,
    pub(crate) copy: Option<Copying>,
    pub(crate) completed: Vec<Completed>,
}

impl Model for Machine {
    ghost use Rattle.std.specs.Coded.{codes};
    ghost use Rattle.model.specs.JsonCode.{coded_members};
    ghost use Rattle.machine.specs.States.{State, state_of, IsMachine};

    ghost Value = { State };

    ghost coded = { Prim.hlevel (codes, coded_members) };

    ghost view = { λ m. state_of m.version m.config m.waiting.items m.batch.items m.views.items m.copy m.completed.items };

    ghost invariant = { λ m. IsMachine m.version (state_of m.version m.config m.waiting.items m.batch.items m.views.items m.copy m.completed.items) m.views.items m.copy };
}

impl Machine {
    /// A machine of a first epoch, over the empty database, before any event.
    pub fn new(alloc: Global, config: Config) -> Result<Machine, AllocError>
        ensures start { IfOk result (λ m. m ≡ start_state None config) }
    {
        let begun = Version::empty(alloc);
        Machine::over(alloc, config, begun)
    }

    /// A machine of the epoch after this version, before any event: its history has no entries, and its base is the database
    /// of the version, where no session has called. `Version::has_successor` says whether there can be one.
    #[tactic(auto, using(crate::proofs::Starts::start_over))]
    pub fn after(alloc: Global, config: Config, version: &Version) -> Result<Machine, AllocError>
        requires updates { (now version.now).update_seq ≤ largest_base }
        requires purges { (now version.now).purges.purge_seq ≤ largest_base }
        ensures start { IfOk result (λ m. m ≡ start_state (Some (successor (now version.now))) config) }
    {
        let begun = version.successor()?;
        Machine::over(alloc, config, begun)
    }

    /// A machine over a version of no entries, before any event.
    fn over(alloc: Global, config: Config, version: Version) -> Result<Machine, AllocError>
        requires { version.entries ≡ [] }
        ensures start { IfOk result (λ m. m ≡ start_state version.base config) }
    {
        let limits = config.limits();
        let views = first_views(alloc, &version, limits.sessions)?;
        Ok(Machine {
            alloc,
            config,
            version,
            waiting: VecDeque::new(alloc),
            batch: Vec::new(alloc),
            views,
            copy: None,
            completed: Vec::new(alloc),
        })
    }

    /// What the event does. Where memory is refused, the machine is as it was.
    pub fn step(&mut self, event: &Event) -> Result<(), AllocError>
        ensures stepped { OnOk result (self.new ≡ stepped self.old (event_of event.now)) }
        ensures put { OnOk result (event_of event.now ≡ model.Put → 0 < length self.old.world.batch → length self.old.world.history + length self.old.world.batch ≤ self.old.config.max_places
            → self.new.world.history ≡ self.old.world.history ++ batch_entries (model.database_of (base_of self.old.base) self.old.world) self.old.world.batch) }
        ensures swap { OnOk result (event_of event.now ≡ model.Swap → (self.new.world.history ≡ self.old.world.history) ⊎ model.AddsCompact (base_of self.old.base) self.old.world self.new.world) }
        ensures others { OnOk result (event_of event.now ≢ model.Put → event_of event.now ≢ model.Swap → self.new.world.history ≡ self.old.world.history) }
        ensures kept { OnErr result (self.new ≡ self.old) }
    {
        self.happen(event)
    }

    /// The method of the event.
    fn happen(&mut self, event: &Event) -> Result<(), AllocError>
        ensures stepped { OnOk result (self.new ≡ stepped self.old (event_of event.now)) }
        ensures kept { OnErr result (self.new ≡ self.old) }
    {
        match event {
            Event::Ask(session, command) => self.ask(*session, command),
            Event::Take(n) => self.take(*n),
            Event::Put => self.put(),
            Event::GiveUp => {
                self.give_up();
                Ok(())
            }
            Event::Look(session) => self.look(*session),
            Event::Read(session, query) => self.read(*session, query),
            Event::Start(session) => self.start(*session),
            Event::Slice(n) => self.slice(*n),
            Event::CatchUp(n) => self.catch_up(*n),
            Event::Swap => self.swap(),
            Event::Abort => {
                self.abort();
                Ok(())
            }
        }
    }

    /// What came of all events so far: the history, and the completed calls in order.
    pub fn into_record(self) -> Record
        ensures version { result.version ≡ record { base = self.base; entries = self.world.history } }
        ensures completed { map completed_of result.completed.items ≡ self.world.completed }
    {
        let Machine {
            version,
            completed,
            ..
        } = self;
        Record { version, completed }
    }
}
