//! The two ends of a replication, and runs between them.

use crate::patient::{GivenUp, Patience};
use crate::progress::Progress;
use crate::reaching::{Opener, ReachedEnd, Unreached};
use crate::watching::Lines;
use command_line::Replicating;
use document_id::{DocId, DocIds};
use replicator_run::{
    Asked, End, Reached, Report, checkpoint_id, run_replication, wait_for_changes,
};
use std::alloc::{AllocError, Global};
use std::cell::Cell;
use std::net::TcpStream;
use std::thread;
use std::time::Duration;

/// How many milliseconds it takes at least from one run to the next, for the changes that come together.
const BREATH: u64 = 50;

/// How many milliseconds it takes where the source couldn't be asked whether there are changes.
const PAUSE: u64 = 1000;

/// How many seconds a source waits for a change, at most.
const LONGEST_POLL: u64 = 120;

/// What is replicated between which ends, how long each has for an answer, and what was asked last.
#[derive(Drop)]
pub(crate) struct Pair<'r> {
    pub(crate) rt: &'r HostRuntime,
    replicating: &'r Replicating,
    id: DocId,
    ids: Option<DocIds>,
    source: Patience,
    target: Patience,
    poll: Patience,
    pub(crate) last: Cell<Option<(End, Asked)>>,
    pub(crate) last_seq: Cell<u64>,
    pub(crate) progress: Progress<'r>,
}

/// Why a run didn't begin.
#[derive(Clone, Copy, Debug, PartialEq, Eq)]
pub(crate) enum NotRun {
    /// An end isn't reached.
    Unreached(End, Unreached),
    /// Both ends are one.
    OneEnd,
    /// Out of memory.
    Memory,
}

impl<'r> Pair<'r> {
    /// The ends that were given.
    ///
    /// # Errors
    ///
    /// Out of memory.
    pub(crate) fn new(
        rt: &'r HostRuntime,
        replicating: &'r Replicating,
    ) -> Result<Pair<'r>, AllocError> {
        let ids = listed(rt.alloc(), &replicating.doc_ids)?;
        let id = id_of(rt.alloc(), replicating, &ids)?;
        let patience = Duration::from_secs(replicating.patience as u64);
        Ok(Pair {
            rt,
            replicating,
            id,
            ids,
            source: Patience::new(patience, replicating.max_answer),
            target: Patience::new(patience, replicating.max_answer),
            poll: Patience::new(
                patience.saturating_add(Duration::from_secs(LONGEST_POLL)),
                replicating.max_answer,
            ),
            last: Cell::new(None),
            last_seq: Cell::new(0),
            progress: Progress::new(rt),
        })
    }

    /// What was asked last, and of which end.
    pub(crate) fn last(&self) -> Option<(End, Asked)> {
        self.last.get()
    }

    /// Why an end was given up, if one was.
    pub(crate) fn given_up(&self) -> Option<GivenUp> {
        self.source.given_up().or(self.target.given_up())
    }

    /// No end is given up any more.
    pub(crate) fn forgive(&self) {
        self.source.forgive();
        self.target.forgive();
        self.poll.forgive();
    }

    /// Takes the line of progress away.
    pub(crate) fn clear(&self) {
        self.progress.clear();
    }

    /// How long an end has for an answer.
    pub(crate) fn patience(&self, end: End) -> &Patience {
        match end {
            End::Source => &self.source,
            End::Target => &self.target,
        }
    }

    /// Where an end is.
    fn place(&self, end: End) -> &str {
        match end {
            End::Source => self.replicating.source.as_str(),
            End::Target => self.replicating.target.as_str(),
        }
    }

    /// What opens connections to an end.
    fn opener(&self, end: End) -> Opener<'_> {
        Opener {
            rt: self.rt,
            place: self.place(end),
            patience: self.patience(end),
        }
    }

    /// A connection to an end.
    fn reach(&self, end: End) -> Result<TcpStream, NotRun> {
        match self.opener(end).connect() {
            Ok(socket) => Ok(socket),
            Err(why) => Err(NotRun::Unreached(end, why)),
        }
    }

    /// An end as it is reached by a connection.
    fn reached(&self, end: End, socket: TcpStream) -> Result<ReachedEnd<'_>, NotRun> {
        match self.opener(end).reached(socket) {
            Ok(reached) => Ok(reached),
            Err(_) => Err(NotRun::Unreached(end, Unreached::Refused)),
        }
    }

    /// One run over new connections, which begins at the checkpoints.
    pub(crate) fn run(&self) -> Result<Report, NotRun> {
        let source = self.reach(End::Source)?;
        let target = self.reach(End::Target)?;
        if are_one(&source, &target) {
            return Err(NotRun::OneEnd);
        }
        let source = self.reached(End::Source, source)?;
        let target = self.reached(End::Target, target)?;
        let Ok((id, ids)) = self.named() else {
            return Err(NotRun::Memory);
        };
        self.progress.begin();
        let lines = Lines { pair: self };
        let skip = self.replicating.skip;
        Ok(run_replication(self.rt.alloc(), id, ids, skip, source, target, lines))
    }

    /// Waits until the source has more changes, or answers that it has none. Where it can't be asked, the next run says
    /// so.
    pub(crate) fn wait(&self) {
        let pause = if self.has_waited() { BREATH } else { PAUSE };
        thread::sleep(self.rt, Duration::from_millis(pause));
    }

    /// Asks the source for the next change, and waits for its answer. Whether one has come.
    fn has_waited(&self) -> bool {
        let opener = Opener {
            rt: self.rt,
            place: self.place(End::Source),
            patience: &self.poll,
        };
        let Ok(socket) = opener.connect() else {
            return false;
        };
        let Ok(source) = opener.reached(socket) else {
            return false;
        };
        let Reached {
            host,
            mut reader,
            mut writer,
            opener: _,
        } = source;
        let waited = wait_for_changes(
            self.rt.alloc(),
            host.as_str(),
            &mut reader,
            &mut writer,
            &self.ids,
            self.last_seq.get(),
        );
        waited.is_ok()
    }

    /// The id of the checkpoints, and the documents.
    fn named(&self) -> Result<(DocId, Option<DocIds>), AllocError> {
        let id = self.id.share()?;
        match &self.ids {
            Some(ids) => Ok((id, Some(ids.share()?))),
            None => Ok((id, None)),
        }
    }

    /// Says why an end was given up, what was asked of it, and how many documents had come by then.
    pub(crate) fn say_given_up(&self, why: GivenUp, report: &Report) {
        let Some((end, asked)) = self.last.get() else {
            return;
        };
        let (end, asked) = (end.name(), asked.name());
        let (read, written) = (report.documents_read, report.documents_written);
        let patience = self.replicating.patience;
        let most = self.replicating.max_answer;
        let _printed = match why {
            GivenUp::Silent => {
                eprintln!(self.rt;
                    "couchd: the {end} was silent for {patience} s at {asked}; documents read {read}, written {written}"
                )
            }
            GivenUp::Large => {
                eprintln!(self.rt;
                    "couchd: the {end} answered by more than {most} bytes at {asked}; documents read {read}, written {written}"
                )
            }
        };
    }

    /// Says of what was asked last that it couldn't be served, where a run ended with that.
    pub(crate) fn say_unavailable(&self) {
        let Some((end, asked)) = self.last.get() else {
            return;
        };
        if !self.patience(end).is_unavailable() {
            return;
        }
        let (end, asked) = (end.name(), asked.name());
        let _printed = eprintln!(self.rt; "couchd: the {end} can't serve {asked} now (503)");
    }

    /// Says why a run didn't begin.
    pub(crate) fn say(&self, why: &NotRun) {
        let _printed = match why {
            NotRun::Unreached(end, Unreached::NoAddress) => {
                let place = self.place(*end);
                eprintln!(self.rt;
                    "couchd: no address of the {} at {place} is found",
                    end.name()
                )
            }
            NotRun::Unreached(end, Unreached::Refused) => {
                let place = self.place(*end);
                eprintln!(self.rt; "couchd: cannot reach the {} at {place}", end.name())
            }
            NotRun::OneEnd => eprintln!(self.rt; "couchd: the source and the target are one"),
            NotRun::Memory => eprintln!(self.rt; "couchd: no memory"),
        };
    }
}

/// The id of the checkpoints: the one that was given, or else one of these ends and documents.
fn id_of(
    alloc: Global,
    replicating: &Replicating,
    ids: &Option<DocIds>,
) -> Result<DocId, AllocError> {
    let Some(id) = &replicating.id else {
        return checkpoint_id(
            alloc,
            replicating.source.as_str(),
            replicating.target.as_str(),
            ids,
            replicating.skip,
        );
    };
    match DocId::new(alloc, id.as_str()) {
        Ok(id) => Ok(id),
        Err(_) => Err(AllocError),
    }
}

/// The documents of the list, if one was given.
fn listed(alloc: Global, ids: &Option<Vec<String>>) -> Result<Option<DocIds>, AllocError> {
    let Some(ids) = ids else {
        return Ok(None);
    };
    let texts: Vec<&str> = ids.iter().map(|id| id.as_str()).collect(alloc)?;
    Ok(Some(DocIds::named(alloc, &texts)?))
}

/// Whether two connections have one address at the other end.
fn are_one(source: &TcpStream, target: &TcpStream) -> bool {
    match (source.peer_addr(), target.peer_addr()) {
        (Ok(source), Ok(target)) => source == target,
        _ => false,
    }
}
