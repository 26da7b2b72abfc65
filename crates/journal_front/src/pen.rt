//! The pen of a journal, by which one at a time appends to it.
ghost use Rattle.std.specs.Prelude.{◌≡◌, [], option_map};
ghost use Rattle.journal_front.specs.Keeping.{IsAccounted, IsBehind, IsRound, Names};

use crate::appending::{pass, sync_all};
use crate::epochs::{Epoch, Epochs};
use crate::journaled::{Account, Journaled};
use crate::keeper::{Turn, Upkeep};
use crate::mending::rewrite;
use crate::naming::Keeping;
use crate::notices::Notices;
use crate::service::Service;
use durable_calls::{KeptPlace, Pass, Passes, Progress};
use journal::{Appended, Journal, JournalFault};
use session_calls::SeesVersion;
use std::alloc::Global;
use std::marker::{Model, PhantomData};
use std::sync::{Mutex, Wait};

/// What lies under a pen: the journal of an epoch, the session that sees what is to be appended to it, and the next epoch once it has
/// begun. Contracts see the session, the journal, and what is known to be in that.
pub(crate) struct Round<K: SeesVersion, F: Appended, N: Keeping, L: Notices<F>, E: Epochs<F>> {
    session: K,
    journal: Journal<F>,
    next: Option<Epoch<F>>,
    account: Account<N>,
    of: PhantomData<(L, E)>,
}

impl<K: SeesVersion + Drop, F: Appended, N: Keeping, L: Notices<F>, E: Epochs<F>> Drop
    for Round<K, F, N, L, E> {
    fn drop(self) {
        let Round {
            session: _,
            journal: _,
            next: _,
            account: _,
            of: _,
        } = self;
    }
}

impl<K: SeesVersion, F: Appended, N: Keeping, L: Notices<F>, E: Epochs<F>> Model
    for Round<K, F, N, L, E> {
    ghost use Rattle.std.specs.Prelude.{List, option_map};
    ghost use Rattle.std.specs.Coded.{codes, coded×};
    ghost use Rattle.model.specs.JsonCode.{coded_members};
    ghost use Rattle.model.specs.Command.{Entry};
    ghost use Rattle.journal.specs.Kept.{Kept};
    ghost use Rattle.journal_front.specs.Keeping.{IsAccounted, IsRound, Names};

    ghost Value = { K × (Kept × List Entry) };

    ghost coded = { coded× K.code (Prim.hlevel (codes, coded_members)) };

    ghost view = { λ r. (r.session, (r.journal, r.account)) };

    ghost invariant = { λ r.
        Names F.said F.told L.reported N.is_appended N.is_kept N.is_limit N.has_failed N.base
        × IsAccounted N.base (K.known r.session) r.account
        × (E.reported → N.has_failed)
        × IsRound N.has_failed (K.known r.session) r.journal (option_map (λ next. next.version.base) r.next) };
}

/// What the end of an epoch leaves.
pub(crate) struct Left<K, F: Appended> {
    /// The session that saw what was appended.
    pub(crate) session: K,
    /// The journal of the epoch.
    pub(crate) journal: Journal<F>,
    /// The next epoch, where the history of this one is full.
    pub(crate) next: Option<Epoch<F>>,
}

impl<K: SeesVersion, F: Appended, N: Keeping, L: Notices<F>, E: Epochs<F>> Round<K, F, N, L, E> {
    /// Over a journal that is the dump of a beginning of what the session has seen.
    pub(crate) fn new(session: K, journal: Journal<F>, account: Account<N>) -> Round<K, F, N, L, E>
        requires named { Names F.said F.told L.reported N.is_appended N.is_kept N.is_limit N.has_failed N.base }
        requires accounted { IsAccounted N.base (K.known session) account }
        requires unready { E.reported → N.has_failed }
        requires behind { IsBehind journal (K.known session) }
    {
        Round {
            session,
            journal,
            next: None,
            account,
            of: PhantomData,
        }
    }

    /// What is known once a failure was reported, of whatever lies here.
    pub(crate) fn recall(&self)
        ensures { L.reported → N.has_failed }
    {
        let _journal = &self.journal;
    }

    /// What was known of the journal at first: that it has no entries.
    pub(crate) fn at_first(&self) -> Journaled<N>
        ensures none { result ≡ [] }
    {
        self.account.at_first()
    }

    /// How far the journal is known to have come.
    pub(crate) fn known(&self) -> Journaled<N>
        ensures known { result ≡ self.now.1.1 }
    {
        self.account.journaled().again()
    }

    /// Its parts.
    pub(crate) fn into_left(self) -> Left<K, F>
        ensures session { result.session ≡ self.0 }
        ensures journal { result.journal ≡ self.1.0 }
        ensures accounted { IsAccounted N.base (K.known result.session) self.1.1 }
        ensures round { IsRound N.has_failed (K.known result.session) result.journal (option_map (λ next. next.version.base) result.next) }
    {
        let Round {
            session,
            journal,
            next,
            account: _,
            of: _,
        } = self;
        Left {
            session,
            journal,
            next,
        }
    }

    /// Syncs what the epoch begins with. Where that fails, as where its file could not be made, the journal is broken from the start,
    /// which is reported and said.
    pub(crate) fn check(&mut self, place: &KeptPlace<Journaled<N>>, notices: &L) {
        if self.journal.is_broken() || self.next.is_some() {
            return;
        }
        if self.journal.sync().is_err() {
            notices.failed(&self.journal);
            place.fail();
        }
    }

    /// A pass: what is new is appended, and with `syncs` made durable, which is said. Where the journal breaks by it, that is
    /// reported and said. While it is broken, or once the next epoch has begun, nothing is done.
    pub(crate) fn pass<R: Wait>(
        &mut self,
        alloc: Global,
        rt: &R,
        place: &KeptPlace<Journaled<N>>,
        notices: &L,
        syncs: bool,
    ) -> Pass {
        if self.journal.is_broken() || self.next.is_some() {
            return Pass::Made;
        }
        match pass(
            alloc,
            rt,
            &mut self.session,
            &mut self.journal,
            place,
            &mut self.account,
            syncs,
        ) {
            Ok(()) => Pass::Made,
            Err(JournalFault::Memory) => Pass::Refused,
            Err(JournalFault::Failed) => {
                notices.failed(&self.journal);
                place.fail();
                Pass::Made
            }
        }
    }

    /// What a disk is asked for besides passes: the journal anew where it is broken, and the next epoch where the history is full.
    pub(crate) fn settle<R: Wait>(
        &mut self,
        rt: &R,
        service: &Service<'_, L>,
        place: &KeptPlace<Journaled<N>>,
        epochs: &mut E,
    ) -> Turn {
        if self.next.is_some() {
            return Turn::Over;
        }
        if self.journal.is_broken() {
            return self.mend(rt, service, place, epochs);
        }
        self.end_epoch(rt, service, place, epochs)
    }

    /// Writes a broken journal anew, with all that the session sees, and says so.
    fn mend<R: Wait>(
        &mut self,
        rt: &R,
        service: &Service<'_, L>,
        place: &KeptPlace<Journaled<N>>,
        epochs: &mut E,
    ) -> Turn {
        if self.next.is_some() || !self.journal.is_broken() {
            return Turn::Done;
        }
        match rewrite(
            rt,
            &mut self.session,
            &self.journal,
            place,
            &mut self.account,
            epochs,
        ) {
            Some(whole) => {
                self.journal = whole;
                place.mend();
                service.notices.mended();
                Turn::Done
            }
            None => Turn::Refused,
        }
    }

    /// Begins the next epoch where the history is full, and ends this one, after all of it is made durable. Where none can begin,
    /// or the journal breaks by the sync, that is reported and said.
    fn end_epoch<R: Wait>(
        &mut self,
        rt: &R,
        service: &Service<'_, L>,
        place: &KeptPlace<Journaled<N>>,
        epochs: &mut E,
    ) -> Turn {
        if self.journal.is_broken() || self.next.is_some() {
            return Turn::Done;
        }
        let seen = self.session.place();
        if seen < service.max_places as u64 || self.journal.place() != seen {
            return Turn::Done;
        }
        if self.account.places() != seen {
            return Turn::Done;
        }
        if sync_all(
            rt,
            &self.session,
            &mut self.journal,
            place,
            &mut self.account,
        )
        .is_err()
        {
            service.notices.failed(&self.journal);
            place.fail();
            return Turn::Done;
        }
        self.next = epochs.succeed(&self.journal, self.session.version());
        if self.next.is_none() {
            place.fail();
            return Turn::Refused;
        }
        place.finish();
        epochs.wake(service.workers);
        Turn::Over
    }
}

/// The pen of a journal. Whoever has it makes a pass, the others wait for its end.
pub(crate) struct Pen<'s, K: SeesVersion, F: Appended, N: Keeping, L: Notices<F>, E: Epochs<F>> {
    alloc: Global,
    round: Mutex<Round<K, F, N, L, E>>,
    place: &'s KeptPlace<Journaled<N>>,
    notices: &'s L,
}

impl<K: SeesVersion + Drop, F: Appended, N: Keeping, L: Notices<F>, E: Epochs<F>> Drop
    for Pen<'_, K, F, N, L, E> {
    fn drop(self) {
        let Pen {
            alloc: _,
            round: _,
            place: _,
            notices: _,
        } = self;
    }
}

impl<'s, K: SeesVersion, F: Appended, N: Keeping, L: Notices<F>, E: Epochs<F>> Pen<
    's,
    K,
    F,
    N,
    L,
    E,
> {
    /// Over what lies under it. What it does is said by this place.
    pub(crate) fn new(
        alloc: Global,
        round: Round<K, F, N, L, E>,
        place: &'s KeptPlace<Journaled<N>>,
        notices: &'s L,
    ) -> Pen<'s, K, F, N, L, E> {
        Pen {
            alloc,
            round: Mutex::new(round),
            place,
            notices,
        }
    }

    /// How far the journal is known to have come.
    pub(crate) fn known<R: Wait>(&self, rt: &R) -> Journaled<N> {
        let round = self.round.lock(rt);
        round.known()
    }

    /// What lies under it.
    pub(crate) fn into_round(self) -> Round<K, F, N, L, E> {
        let Pen {
            alloc: _,
            round,
            place: _,
            notices: _,
        } = self;
        round.into_inner()
    }
}

impl<'s, R: Wait, K: SeesVersion, F: Appended, N: Keeping, L: Notices<F>, E: Epochs<F>> Upkeep<
    R,
    F,
    N,
    L,
    E,
> for Pen<'s, K, F, N, L, E> {
    fn keep(
        &self,
        rt: &R,
        service: &Service<'_, L>,
        epochs: &mut E,
        syncs: bool,
        tries: bool,
    ) -> Turn {
        let mut round = self.round.lock(rt);
        round.pass(self.alloc, rt, self.place, self.notices, syncs);
        let turn = if tries {
            round.settle(rt, service, self.place, epochs)
        } else {
            Turn::Done
        };
        drop(round);
        self.place.end_pass();
        turn
    }
}

impl<X: Wait, K: SeesVersion, F: Appended, N: Keeping, L: Notices<F>, E: Epochs<F>> Passes<X>
    for Pen<'_, K, F, N, L, E> {
    fn try_pass(&self, context: &X, syncs: bool) -> Pass {
        let Some(mut round) = self.round.try_lock() else {
            return Pass::Busy;
        };
        if syncs {
            self.place.gather();
        }
        let pass = round.pass(self.alloc, context, self.place, self.notices, syncs);
        drop(round);
        self.place.end_pass();
        pass
    }
}
