//! The connections of a session.
ghost use Rattle.std.specs.Prelude.{◌≡◌, ℕ, length};
ghost use Rattle.http_connection.specs.Turn.{Turn};
ghost use Rattle.streams.specs.Streams.{streams_of};
ghost use Rattle.http_turns.specs.SessionTurn.{Answers};
ghost use Rattle.http_turns.specs.Connection.{IsConnection};
ghost use Rattle.model.specs.History.{IsLegal, base_of};

use crate::feed::follow;
use crate::response::{Reply, send, send_long};
use crate::setting::Setting;
use crate::turn::{refuse, respond};
use http_connection::{Cause, Ended, Service, Window};
use http_framing::FramingFault;
use http_framing::request::Request;
use session_api::{Calls, Viewer};
use std::alloc::Global;
use streams::{Failed, Sink, Source};

/// Memory for the window was refused.
const NOTHING_READ: Ended = Ended {
    answered: 0,
    cause: Cause::Memory,
};

/// What answers by a session that it is lent, which stays the same one, in a context `C`.
pub trait Borrows<C> {
    /// What the session is.
    type Session: Viewer;

    /// The session, as it is now.
    ghost session_now: { Self → Self.Session };

    /// By this name it was lent.
    ghost session_name: { Self → ℕ };

    /// In this context a wait for changes looks so many times at most.
    ghost turns_in: { C → ℕ };

    /// The number of entries that the session has seen.
    fn place(&self) -> u64
        ensures place { result ≡ length (Self.Session.known (session_now self.now)).seen }
        ensures legal { IsLegal (base_of (Self.Session.known (session_now self.now)).base)
            (Self.Session.known (session_now self.now)).seen };
}

/// A session that is lent to a connection.
#[derive(Drop)]
pub struct Lent<'s, S> {
    pub session: &'s mut S,
}

impl<'s, 'c, X, S: Viewer> Borrows<Setting<'c, X>> for Lent<'s, S> {
    type Session = S;

    ghost session_now = { λ lent. lent.session.now };

    ghost session_name = { λ lent. lent.session.ghost_name };

    ghost turns_in = { λ setting. setting };

    fn place(&self) -> u64 {
        self.session.place()
    }
}

impl<'s, 'c, X, S: Calls<X>> Service<Setting<'c, X>> for Lent<'s, S> {
    // It stays the same session.
    ghost answers = { λ setting old turn new.
        Answers S.goes S.known setting old.session.now turn new.session.now
        × (new.session.ghost_name ≡ old.session.ghost_name) };

    fn answer<W: Sink>(
        &mut self,
        setting: &Setting<'c, X>,
        request: &Request<'_>,
        writer: &mut W,
    ) -> Result<bool, Failed> {
        match respond(self.session, setting, request) {
            Reply::Sent(sent) => send(writer, &sent),
            Reply::Long(long) => send_long(setting.alloc, writer, long),
            Reply::Feed(changes) => {
                follow(self.session, setting, changes, request.closes(), writer)
            }
        }
    }

    fn refuse<W: Sink>(
        &mut self,
        _setting: &Setting<'c, X>,
        fault: FramingFault,
        writer: &mut W,
    ) -> Result<(), Failed> {
        let sent = refuse(&*self.session, fault);
        let Ok(_closes) = send(writer, &sent) else {
            return Err(Failed);
        };
        Ok(())
    }
}

/// Serves the requests of the reader to the writer, in order, each as soon as it is whole. Other
/// sessions of the database may have entries meanwhile. Room for the largest request is taken first;
/// where that is refused, nothing is read. An answer with the revisions of a document that is longer than
/// [`PIECE`](http_response::PIECE), and one with more than 1,000 rows of `_changes` or `_all_docs`, is written in
/// pieces as they are made: out of memory for one of them it is cut, counts as answered, and the connection closes.
pub fn serve<R: Source, W: Sink, X, S: Calls<X>>(
    alloc: Global,
    reader: &mut R,
    writer: &mut W,
    session: &mut S,
    setting: &Setting<'_, X>,
) -> Ended
    ensures connection { IsConnection S.goes S.known setting.now
        (streams_of (R.left reader.old) (R.failed_reads reader.old) (W.taken writer.old) (W.failed_writes writer.old))
        (streams_of (R.left reader.new) (R.failed_reads reader.new) (W.taken writer.new) (W.failed_writes writer.new))
        session.old session.new result }
{
    let Ok(mut window) = Window::new(alloc) else {
        let _recalled = session.place();
        return NOTHING_READ;
    };
    let mut lent = Lent { session };
    serve_by(&mut window, reader, writer, &mut lent, setting)
}

/// Serves a connection in a window that served others before, by a service whose turns are those of the session that it is lent.
pub fn serve_by<R: Source, W: Sink, C, T: Service<C> + Borrows<C>>(
    window: &mut Window,
    reader: &mut R,
    writer: &mut W,
    service: &mut T,
    context: &C,
) -> Ended
    requires answers { (old : T) (turn : Turn) (new : T) → T.answers context.now old turn new
        → Answers T.Session.goes T.Session.known (T.turns_in context.now) (T.session_now old) turn (T.session_now new)
        × (T.session_name new ≡ T.session_name old) }
    ensures same { T.session_name service.new ≡ T.session_name service.old }
    ensures connection { IsConnection T.Session.goes T.Session.known (T.turns_in context.now)
        (streams_of (R.left reader.old) (R.failed_reads reader.old) (W.taken writer.old) (W.failed_writes writer.old))
        (streams_of (R.left reader.new) (R.failed_reads reader.new) (W.taken writer.new) (W.failed_writes writer.new))
        (T.session_now service.old) (T.session_now service.new) result }
{
    let ended = http_connection::serve(window, reader, writer, service, context);
    let _recalled = service.place();
    ended
}
