//! A session that answers only what a journal has.
ghost use Rattle.std.specs.Prelude.{◌≡◌, ⊤, Result};
ghost use Rattle.model.specs.Command as model;
ghost use Rattle.session_api.specs.Learns.{Learns};
ghost use Rattle.session_api.specs.SessionCall as call;
ghost use Rattle.session_api.specs.declared.fault.CallFault as declared;
ghost use Rattle.durable_calls.specs.Kept.{GoesKept, WaitsKept, refused_by};

use crate::keeping::Progress;
use crate::kept_place::KeptPlace;
use crate::passes::Passes;
use commands::{Command, Entry};
use document_id::DocIds;
use queries::{Answer, Query, Row};
use session_api::{CallFault, Calls, Following, Unavailable, Viewer};
use std::alloc::{AllocError, Global};
use std::marker::Model;
use std::sync::Wait;

/// A session whose entries a journal keeps, and whose calls are answered when what they show is appended, and where that is
/// awaited kept too. Contracts see the session, whether it awaits what is kept, and the entries which it knows that the journal has.
pub struct Durable<'p, S, G: Progress, P, R> {
    session: S,
    place: &'p KeptPlace<G>,
    passes: &'p P,
    /// By this it waits, in calls too that are given no context.
    rt: &'p R,
    awaits: bool,
    /// How far it knows that the journal has come.
    known: G,
}

impl<'p, S: Drop, G: Progress, P, R> Drop for Durable<'p, S, G, P, R> {
    fn drop(self) {
        let Durable {
            session: _,
            place: _,
            passes: _,
            rt: _,
            awaits: _,
            known: _,
        } = self;
    }
}

impl<'p, S, G: Progress, P, R> Model for Durable<'p, S, G, P, R> {
    ghost use Rattle.std.specs.Coded.{codes, coded×, coded_bool};
    ghost use Rattle.model.specs.JsonCode.{coded_members};
    ghost use Rattle.durable_calls.specs.Kept.{Answering};

    ghost Value = { Answering S };

    ghost coded = { coded× S.code (coded× coded_bool (Prim.hlevel (codes, coded_members))) };

    ghost view = { λ d. (d.session, (d.awaits, G.journaled d.known)) };
}

impl<'p, S, G: Progress, P, R> Durable<'p, S, G, P, R> {
    /// A session whose journal says by this place what it has, by whose passes entries come there, whether what is answered has to be
    /// kept, and how far it knows that the journal has come.
    pub fn new(
        session: S,
        place: &'p KeptPlace<G>,
        passes: &'p P,
        rt: &'p R,
        awaits: bool,
        known: G,
    ) -> Durable<'p, S, G, P, R>
        ensures { result ≡ (session, (awaits, G.journaled known)) }
    {
        Durable {
            session,
            place,
            passes,
            rt,
            awaits,
            known,
        }
    }

    /// The session, and how far it knows that the journal has come.
    pub fn into_parts(self) -> (S, G)
        ensures session { result.0 ≡ self.entry.0 }
        ensures known { G.journaled result.1 ≡ self.entry.1.1 }
    {
        let Durable {
            session,
            place: _,
            passes: _,
            rt: _,
            awaits: _,
            known,
        } = self;
        (session, known)
    }
}

impl<'p, S: Viewer, G: Progress, P: Passes<R>, R: Wait> Durable<'p, S, G, P, R> {
    /// Why nothing is written once the journal has failed: a session that is lost says so.
    fn refuse(&mut self) -> CallFault
        ensures refused { (looked : Result ⊤ declared.CallFault) × S.goes self.old.0 (call.Refreshed looked) self.new.0
            × Learns (S.known self.old.0) (call.Refreshed looked) (S.known self.new.0)
            × (result ≡ refused_by looked) }
        ensures same { self.new.1 ≡ self.old.1 }
    {
        match self.session.refresh() {
            Err(CallFault::Unavailable(Unavailable::Lost)) => {
                CallFault::Unavailable(Unavailable::Lost)
            }
            Ok(()) | Err(_) => CallFault::Unavailable(Unavailable::Journal),
        }
    }
}

impl<'p, S: Viewer, G: Progress, P: Passes<R>, R: Wait> Viewer for Durable<'p, S, G, P, R> {
    type Opened = S::Opened;

    ghost known = { λ d. S.known d.0 };

    ghost goes = { λ old call new. GoesKept S.goes S.known G.is_appended G.is_kept G.is_limit G.has_failed old call new };

    fn place(&self) -> u64 {
        self.session.place()
    }

    fn entry(&self, place: u64) -> Option<&Entry> {
        self.session.entry(place)
    }

    fn answer(&self, alloc: Global, query: &Query) -> Result<Answer, AllocError> {
        self.session.answer(alloc, query)
    }

    fn open_revs(&self, alloc: Global, query: &Query) -> Result<Option<S::Opened>, AllocError> {
        self.session.open_revs(alloc, query)
    }

    fn update_seq(&self) -> u64 {
        self.session.update_seq()
    }

    fn count_changes(&self, since: u64, ids: &Option<DocIds>) -> u64 {
        self.session.count_changes(since, ids)
    }

    fn next_rows(
        &self,
        alloc: Global,
        following: &mut Following,
        limit: u64,
    ) -> Result<Vec<Row>, AllocError> {
        self.session.next_rows(alloc, following, limit)
    }

    /// It waits until what it sees may be shown.
    fn refresh(&mut self) -> Result<(), CallFault> {
        self.session.refresh()?;
        self.place.wait_until_shown(
            self.rt,
            self.passes,
            &self.session,
            &mut self.known,
            self.awaits,
        );
        Ok(())
    }
}

impl<'p, X: Wait, S: Calls<X>, G: Progress, P: Passes<R>, R: Wait> Calls<X>
    for Durable<'p, S, G, P, R> {
    fn write(&mut self, context: &X, command: Command) -> Result<u64, CallFault> {
        if self.place.has_failed() {
            return Err(self.refuse());
        }
        match self.session.write(context, command) {
            Ok(place) => {
                match self.place.wait_for(
                    self.rt,
                    self.passes,
                    &self.session,
                    &mut self.known,
                    self.awaits,
                ) {
                    Ok(()) => Ok(place),
                    Err(_) => Err(CallFault::Unavailable(Unavailable::Journal)),
                }
            }
            Err(fault) => {
                if fault == CallFault::Unavailable(Unavailable::Full) {
                    self.place.ask();
                }
                Err(fault)
            }
        }
    }

    /// It waits turn by turn, ends as refused once the epoch ends, and waits then until what it sees may be shown.
    fn wait_past(&mut self, context: &X, seq: u64, turns: u64) -> Result<bool, CallFault> {
        let past = wait_by_turns(context, &mut self.session, self.place, seq, turns)?;
        self.place.wait_until_shown(
            self.rt,
            self.passes,
            &self.session,
            &mut self.known,
            self.awaits,
        );
        Ok(past)
    }
}

/// Waits turn by turn, and ends as refused once the epoch ends.
fn wait_by_turns<X: Wait, S: Calls<X>, G: Progress>(
    context: &X,
    session: &mut S,
    place: &KeptPlace<G>,
    seq: u64,
    turns: u64,
) -> Result<bool, CallFault>
    ensures waits { WaitsKept S.goes seq turns session.old result session.new }
    ensures learns { Learns (S.known session.old) (call.Waited seq turns result) (S.known session.new) }
{
    let _recalled = session.place();
    for _turn in 0..turns.max(1) {
        match session.wait_past(context, seq, 1) {
            Ok(false) => {}
            outcome => return outcome,
        }
        if place.is_over() {
            return Err(CallFault::Unavailable(Unavailable::Full));
        }
    }
    Ok(false)
}
