//! Connections of which an operator hears.
ghost use Rattle.std.specs.Prelude.{◌≡◌, option_map};
ghost use Rattle.streams.specs.Streams.{Streams, streams_of};
ghost use Rattle.http_guard.specs.Guarded.{Guarded};
ghost use Rattle.http_turns.specs.Connection.{IsConnection};
ghost use Rattle.http_turns.specs.SessionTurn.{Answers};
ghost use Rattle.http_connection.specs.declared.outcome.Ended.{Ended};
ghost use Rattle.http_workers.specs.Worker.{IsServedBy, Serves};

use crate::faults::Faults;
use crate::guarding::serve_guarded;
use crate::room::Room;
use crate::watch::Watch;
use http_connection::{Ended, Service, Window};
use http_framing::FramingFault;
use http_framing::request::Request;
use http_guard::Notes;
use http_turns::{Borrows, Lent, Setting, serve_by};
use origin_policy::Policy;
use request_log::{Log, Watched};
use session_api::Calls;
use std::alloc::Global;
use std::time::{Clock, Duration, Instant};
use std::{io, thread};
use streams::{Failed, Sink, Source};

/// What is logged as the method and the target of bytes that are no request.
const NONE: &[u8] = b"-";

/// How many milliseconds a worker waits after a connection that can't be accepted, as where the
/// process has no descriptor left, or that its session has seen too little to answer.
const REST_MILLISECONDS: u64 = 1;

/// What an operator hears of a worker.
#[derive(Drop)]
pub(crate) struct Noticing<'n, R, V> {
    pub(crate) clock: &'n R,
    pub(crate) watch: &'n V,
    pub(crate) faults: &'n Faults,
    pub(crate) room: &'n Room,
    /// The number of the worker, from 1, where its requests are logged.
    pub(crate) logged_as: Option<u64>,
    /// What decides which requests are answered, if there is anything.
    pub(crate) policy: Option<&'n Policy>,
}

impl<'n, R: Clock, V: Watch> Noticing<'n, R, V> {
    /// Says that a connection can't be accepted, and waits for a while.
    pub(crate) fn rest(&self, error: &io::Error) {
        self.faults.accept_failed(self.clock, self.watch, error);
        self.pause();
    }

    /// Waits for a while.
    pub(crate) fn pause(&self) {
        thread::sleep(self.clock, Duration::from_millis(REST_MILLISECONDS));
    }

    /// The log of a connection, where its requests are logged.
    fn log(&self, alloc: Global) -> Option<Log<'n, R, V>> {
        let worker = self.logged_as?;
        Some(Log::new(alloc, self.clock, self.watch, worker))
    }
}

/// A service of which an operator hears: after each of its answers it is noted how full the history is, and the request is
/// logged where there is a log.
#[derive(Drop)]
pub(crate) struct Noticed<'n, T, R, V> {
    inner: T,
    watch: &'n V,
    room: &'n Room,
    log: &'n Option<Log<'n, R, V>>,
}

impl<'n, C, T: Borrows<C>, R, V> Borrows<C> for Noticed<'n, T, R, V> {
    type Session = T::Session;

    ghost session_now = { λ noticed. T.session_now noticed.inner };

    ghost session_name = { λ noticed. T.session_name noticed.inner };

    ghost turns_in = { λ context. T.turns_in context };

    fn place(&self) -> u64 {
        self.inner.place()
    }
}

impl<'n, C, T: Service<C> + Borrows<C>, R: Clock, V: Watch> Service<C> for Noticed<'n, T, R, V> {
    ghost answers = { λ context old turn new. T.answers context old.inner turn new.inner };

    fn answer<W: Sink>(
        &mut self,
        context: &C,
        request: &Request<'_>,
        writer: &mut W,
    ) -> Result<bool, Failed> {
        let began = begin(self.log);
        let outcome = self.inner.answer(context, request, writer);
        self.room.note(self.inner.place(), self.watch);
        end(
            self.log,
            began,
            request.method(),
            request.target().as_bytes(),
        );
        outcome
    }

    fn refuse<W: Sink>(
        &mut self,
        context: &C,
        fault: FramingFault,
        writer: &mut W,
    ) -> Result<(), Failed> {
        let began = begin(self.log);
        let outcome = self.inner.refuse(context, fault, writer);
        end(self.log, began, NONE, NONE);
        outcome
    }
}

/// A next response begins, at this time where there is a log and the clock can be read.
fn begin<R: Clock, V: Watch>(log: &Option<Log<'_, R, V>>) -> Option<Instant> {
    log.as_ref()?.begin()
}

/// Logs a request whose response began at this time, where there is a log.
fn end<R: Clock, V: Watch>(
    log: &Option<Log<'_, R, V>>,
    began: Option<Instant>,
    method: &[u8],
    target: &[u8],
) {
    if let Some(log) = log {
        log.end(began, method, target);
    }
}

/// Serves a connection in a window that served others before, and has an operator hear of it.
pub(crate) fn serve_noticed<R: Source, W: Sink + Drop, X, S: Calls<X>, C: Clock, V: Watch>(
    window: &mut Window,
    reader: &mut R,
    writer: W,
    session: &mut S,
    setting: &Setting<'_, X>,
    noticing: &Noticing<'_, C, V>,
) -> Ended
    ensures serves { (ended : Ended) × Serves S.goes S.known setting.now session.old ended session.new }
    ensures decided { (before : Streams) × (after : Streams)
        × (before.left ≡ R.left reader.old) × (after.left ≡ R.left reader.new)
        × IsServedBy S.goes S.known setting.now (option_map (λ policy. policy.now) noticing.now.policy)
        before after session.old result session.new }
{
    let log = noticing.log(setting.alloc());
    let mut writer = Watched::new(writer, log.as_ref().map(|log| log.seen()));
    match noticing.policy {
        Some(policy) => {
            let (ended, _writer) = serve_decided(
                window, reader, writer, session, setting, noticing, &log, policy,
            );
            ended
        }
        None => serve_in_log(
            window,
            reader,
            &mut writer,
            session,
            setting,
            noticing,
            &log,
        ),
    }
}

/// The log of requests that no service answers.
#[derive(Drop)]
struct OwnAnswers<'n, R, V> {
    log: &'n Option<Log<'n, R, V>>,
}

impl<'n, R: Clock, V: Watch> Notes for OwnAnswers<'n, R, V> {
    fn begin(&self) -> Option<Instant> {
        begin(self.log)
    }

    fn end(&self, began: Option<Instant>, request: &Request<'_>) {
        end(
            self.log,
            began,
            request.method(),
            request.target().as_bytes(),
        );
    }
}

/// Serves a connection whose requests a policy decides, and logs them where there is a log. The writer is returned.
fn serve_decided<'l, R: Source, W: Sink, X, S: Calls<X>, C: Clock, V: Watch>(
    window: &mut Window,
    reader: &mut R,
    writer: W,
    session: &mut S,
    setting: &Setting<'_, X>,
    noticing: &Noticing<'l, C, V>,
    log: &'l Option<Log<'l, C, V>>,
    policy: &Policy,
) -> (Ended, W)
    ensures decided { Guarded policy.now (Answers S.goes S.known setting.now)
        (streams_of (R.left reader.old) (R.failed_reads reader.old) (W.taken writer) (W.failed_writes writer))
        (streams_of (R.left reader.new) (R.failed_reads reader.new) (W.taken result.1) (W.failed_writes result.1))
        session.old session.new result.0 }
    ensures serves { (ended : Ended) × Serves S.goes S.known setting.now session.old ended session.new }
{
    let mut noticed = Noticed {
        inner: Lent { session },
        watch: noticing.watch,
        room: noticing.room,
        log,
    };
    let notes = OwnAnswers { log };
    serve_guarded(
        window,
        reader,
        writer,
        &mut noticed,
        setting,
        policy,
        &notes,
    )
}

/// Serves a connection, and logs its requests where there is a log.
fn serve_in_log<R: Source, W: Sink, X, S: Calls<X>, C: Clock, V: Watch>(
    window: &mut Window,
    reader: &mut R,
    writer: &mut W,
    session: &mut S,
    setting: &Setting<'_, X>,
    noticing: &Noticing<'_, C, V>,
    log: &Option<Log<'_, C, V>>,
) -> Ended
    ensures connection { IsConnection S.goes S.known setting.now
        (streams_of (R.left reader.old) (R.failed_reads reader.old) (W.taken writer.old) (W.failed_writes writer.old))
        (streams_of (R.left reader.new) (R.failed_reads reader.new) (W.taken writer.new) (W.failed_writes writer.new))
        session.old session.new result }
{
    let mut noticed = Noticed {
        inner: Lent { session },
        watch: noticing.watch,
        room: noticing.room,
        log,
    };
    serve_by(window, reader, writer, &mut noticed, setting)
}
