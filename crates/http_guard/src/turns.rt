//! The turns of a connection.
ghost use Rattle.std.specs.Prelude.{◌≡◌, []};
ghost use Rattle.streams.specs.Streams.{streams_of};
ghost use Rattle.http_connection.specs.Served.{EndsInput};
ghost use Rattle.http_guard.specs.Guarded.{Guarded};

use crate::notes::Notes;
use crate::passing::pass;
use http_connection::{Cause, Ended, Service, Window};
use http_framing::front::{Front, read_front};
use origin_policy::Policy;
use streams::{Sink, Source};

/// Answers the requests of the reader in order, each as soon as it is whole, in a window that served other connections before.
/// Each is decided by the policy first, and only those that pass are the service's.
///
/// The notes hear of the others. All else is as `http_connection::serve` has it, but that the writer is given and returned.
pub fn serve<C, R: Source, W: Sink, S: Service<C>, N: Notes>(
    window: &mut Window,
    reader: &mut R,
    mut writer: W,
    service: &mut S,
    context: &C,
    policy: &Policy,
    notes: &N,
) -> (Ended, W)
    ensures { Guarded policy.now (S.answers context.now)
        (streams_of (R.left reader.old) (R.failed_reads reader.old) (W.taken writer) (W.failed_writes writer))
        (streams_of (R.left reader.new) (R.failed_reads reader.new) (W.taken result.1) (W.failed_writes result.1))
        service.old service.new result.0 }
{
    clear(window);
    let mut answered = 0;
    'turns: loop {
        match read_front(window.bytes()) {
            Front::Request(spans) => {
                let bytes = window.bytes();
                let (returned, passed) = pass(
                    bytes, &spans, writer, service, context, policy, notes,
                );
                writer = returned;
                let Ok(closes) = passed else {
                    return (after(answered, Cause::WriteFault), writer);
                };
                window.take(spans.taken());
                answered += 1;
                if closes {
                    return (after(answered, Cause::Closed), writer);
                }
                reader.awaits(!window.bytes().is_empty());
            }
            Front::Refused(fault) => {
                let Ok(()) = service.refuse(context, fault, &mut writer) else {
                    return (after(answered, Cause::WriteFault), writer);
                };
                return (after(answered + 1, Cause::Closed), writer);
            }
            Front::More(more) => {
                let Ok(enough) = window.fill(reader, more) else {
                    return (after(answered, Cause::ReadFault), writer);
                };
                if !enough {
                    return (after(answered, end_of_input(window.bytes())), writer);
                }
            }
        }
    }
}

/// Drops all bytes of another connection.
fn clear(window: &mut Window)
    ensures { window.new.bytes ≡ [] }
{
    let len = window.bytes().len();
    window.take(len);
}

/// It ended after so many responses, for this cause.
fn after(answered: u64, cause: Cause) -> Ended
    ensures { result ≡ record { answered = answered; cause = cause } }
{
    Ended { answered, cause }
}

/// The cause where the input ends with these bytes.
fn end_of_input(rest: &[u8]) -> Cause
    ensures { EndsInput result rest.now }
{
    if rest.is_empty() {
        Cause::AtEnd
    } else {
        Cause::InRequest
    }
}
