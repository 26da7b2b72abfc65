//! Connections whose requests a policy decides.
ghost use Rattle.std.specs.Prelude.{◌≡◌};
ghost use Rattle.streams.specs.Streams.{streams_of};
ghost use Rattle.http_connection.specs.Turn.{Turn};
ghost use Rattle.http_connection.specs.declared.outcome.Ended.{Ended};
ghost use Rattle.http_guard.specs.Guarded.{Guarded};
ghost use Rattle.http_turns.specs.SessionTurn.{Answers};
ghost use Rattle.http_workers.specs.Worker.{Serves};

use http_connection::{Ended, Service, Window};
use http_guard::{Notes, serve};
use http_turns::Borrows;
use origin_policy::Policy;
use streams::{Sink, Source};

/// Serves a connection whose requests a policy decides, in a window that served others before, by a service whose turns are those
/// of the session that it is lent. What passes is served as by a connection on which nothing else came. The writer is returned.
pub(crate) fn serve_guarded<R: Source, W: Sink, C, T: Service<C> + Borrows<C>, N: Notes>(
    window: &mut Window,
    reader: &mut R,
    writer: W,
    service: &mut T,
    context: &C,
    policy: &Policy,
    notes: &N,
) -> (Ended, W)
    requires answers { (old : T) (turn : Turn) (new : T) → T.answers context.now old turn new
        → Answers T.Session.goes T.Session.known (T.turns_in context.now) (T.session_now old) turn (T.session_now new)
        × (T.session_name new ≡ T.session_name old) }
    ensures same { T.session_name service.new ≡ T.session_name service.old }
    ensures decided { Guarded policy.now (Answers T.Session.goes T.Session.known (T.turns_in context.now))
        (streams_of (R.left reader.old) (R.failed_reads reader.old) (W.taken writer) (W.failed_writes writer))
        (streams_of (R.left reader.new) (R.failed_reads reader.new) (W.taken result.1) (W.failed_writes result.1))
        (T.session_now service.old) (T.session_now service.new) result.0 }
    ensures serves { (ended : Ended) × Serves T.Session.goes T.Session.known (T.turns_in context.now)
        (T.session_now service.old) ended (T.session_now service.new) }
{
    let (ended, writer) = serve(window, reader, writer, service, context, policy, notes);
    let _recalled = service.place();
    (ended, writer)
}
