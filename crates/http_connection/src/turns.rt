//! The turns of a connection.
ghost use Rattle.streams.specs.Streams.{streams_of};
ghost use Rattle.http_connection.specs.Served.{EndsInput, Served};

use crate::answering::Service;
use crate::outcome::{Cause, Ended};
use crate::window::Window;
use http_framing::front::{Front, read_front};
use streams::{Sink, Source};

/// Answers the requests of the reader in order, each as soon as it is whole, in a window that served
/// other connections before.
///
/// Whatever has come is answered before more is read. Nothing is read after a response that closes
/// the connection. It takes no memory but what the service takes. The reader is told when a next request is
/// awaited, so that it may give up a peer in time: that ends the input where nothing of the request has come, and else is a
/// failed read.
pub fn serve<C, R: Source, W: Sink, S: Service<C>>(
    window: &mut Window,
    reader: &mut R,
    writer: &mut W,
    service: &mut S,
    context: &C,
) -> Ended
    ensures { Served (S.answers context.now)
        (streams_of (R.left reader.old) (R.failed_reads reader.old) (W.taken writer.old) (W.failed_writes writer.old))
        (streams_of (R.left reader.new) (R.failed_reads reader.new) (W.taken writer.new) (W.failed_writes writer.new))
        service.old service.new result }
{
    window.clear();
    let mut answered = 0;
    'turns: loop {
        match read_front(window.bytes()) {
            Front::Request(spans) => {
                let request = spans.request(window.bytes());
                let Ok(closes) = service.answer(context, &request, writer) else {
                    return Ended::after(answered, Cause::WriteFault);
                };
                window.take(spans.taken());
                answered += 1;
                if closes {
                    return Ended::after(answered, Cause::Closed);
                }
                reader.awaits(!window.bytes().is_empty());
            }
            Front::Refused(fault) => {
                let Ok(()) = service.refuse(context, fault, writer) else {
                    return Ended::after(answered, Cause::WriteFault);
                };
                return Ended::after(answered + 1, Cause::Closed);
            }
            Front::More(more) => {
                let Ok(enough) = window.fill(reader, more) else {
                    return Ended::after(answered, Cause::ReadFault);
                };
                if !enough {
                    return Ended::after(answered, end_of_input(window.bytes()));
                }
            }
        }
    }
}

/// The cause where the input ends with these bytes.
fn end_of_input(rest: &[u8]) -> Cause
    ensures { EndsInput result rest.now }
{
    if rest.is_empty() {
        Cause::AtEnd
    } else {
        Cause::InRequest
    }
}
