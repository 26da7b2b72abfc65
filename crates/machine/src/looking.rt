//! Sessions look at the last version, and read at the one that they saw.
ghost use Rattle.std.specs.Prelude.{◌≡◌, ◌<◌, IfOk, OnOk, OnErr, length};
ghost use Rattle.model.specs.Answers.{answer_to};
ghost use Rattle.model.specs.History.{now};
ghost use Rattle.model.specs.World as model;
ghost use Rattle.machine.specs.Events.{completed_of};
ghost use Rattle.machine.specs.States.{stepped};

use crate::completed::Completed;
use crate::copied::copy_query;
use crate::machine::Machine;
use crate::views::{is_free, see, seen_at};
use changes_feed::answer;
use queries::Query;
use snapshots::Version;
use std::alloc::{AllocError, Global};

/// The completed call of a query of the version.
fn asked(
    alloc: Global,
    version: &Version,
    session: u16,
    query: &Query,
) -> Result<Completed, AllocError>
    ensures { IfOk result (λ c. completed_of c ≡ model.Asked session query.now (length version.now.entries) (answer_to (now version.now) query.now)) }
{
    let answer = answer(alloc, version, query)?;
    Ok(Completed::Asked {
        session,
        query: copy_query(alloc, query)?,
        place: version.place(),
        answer,
    })
}

impl Machine {
    /// The session sees the last version, where it is free.
    pub(crate) fn look(&mut self, session: u16) -> Result<(), AllocError>
        ensures stepped { OnOk result (self.new ≡ stepped self.old (model.Look session)) }
        ensures kept { OnErr result (self.new ≡ self.old) }
    {
        if !is_free(&self.views, session) {
            return Ok(());
        }
        let seen = seen_at(&self.version, session)?;
        see(&mut self.views, seen);
        Ok(())
    }

    /// The session's query is answered by the version that it saw last, where it is free.
    pub(crate) fn read(&mut self, session: u16, query: &Query) -> Result<(), AllocError>
        ensures stepped { OnOk result (self.new ≡ stepped self.old (model.Read session query.now)) }
        ensures kept { OnErr result (self.new ≡ self.old) }
    {
        if !is_free(&self.views, session) {
            return Ok(());
        }
        let Some(view) = self.views.get(session as usize) else {
            return Ok(());
        };
        let call = asked(self.alloc, &view.version, session, query)?;
        self.completed.push(call)?;
        Ok(())
    }
}
