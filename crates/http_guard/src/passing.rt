//! A request, and what becomes of it.
ghost use Rattle.std.specs.Prelude.{◌≡◌, IfOk, OnOk, IsTrue, drop, is_ok};
ghost use Rattle.streams.specs.Counts.{CountsFailure};
ghost use Rattle.streams.specs.Writes.{Writes};
ghost use Rattle.http_framing.specs.Front.{IsRequestAt};
ghost use Rattle.http_framing.specs.Input.{Requested};
ghost use Rattle.http_connection.specs.Turn.{Turn, TakesTurn};
ghost use Rattle.origin_policy.specs.Answers.{allowing};
ghost use Rattle.http_guard.specs.Extended.{extended};
ghost use Rattle.http_guard.specs.Passage.{Passage, turn_of, Becomes, IsCutOfSome};

use crate::extended::{Extended, Phase, Start};
use crate::notes::Notes;
use http_connection::Service;
use http_framing::front::RequestSpans;
use http_framing::request::Request;
use origin_policy::{Policy, Verdict, judge, write_forbidden, write_preflight};
use std::marker::{Brand, PhantomData};
use streams::{Failed, Sink};

/// Has the request that these bytes begin with answered as it is decided, and answers whether the connection closes after that. The sink
/// is returned.
///
/// # Errors
///
/// A write failed. A beginning of the response may have been written.
pub(crate) fn pass<C, W: Sink, S: Service<C>, N: Notes>(
    bytes: &[u8],
    spans: &RequestSpans,
    mut writer: W,
    service: &mut S,
    context: &C,
    policy: &Policy,
    notes: &N,
) -> (W, Result<bool, Failed>)
    requires { IsRequestAt bytes.now spans.now }
    ensures passage { (passage : Passage)
        × Becomes policy.now (S.answers context.now) bytes.now (drop spans.now.body.end bytes.now)
        service.old service.new passage
        × Writes (W.taken writer) (W.taken result.0) result.1 (turn_of passage).text
        × ((turn_of passage).whole ≡ is_ok result.1)
        × IfOk result.1 (λ closes. closes ≡ (turn_of passage).closes) }
    ensures failures { CountsFailure (W.failed_writes writer) (W.failed_writes result.0) result.1 }
{
    let request = spans.request(bytes);
    match judge(policy, bytes) {
        Verdict::Pass => {
            let answered = service.answer(context, &request, &mut writer);
            (writer, answered)
        }
        Verdict::PassTo(origin) => {
            answer_to::<Brand, C, W, S>(origin, &request, writer, service, context)
        }
        Verdict::Preflight(origin) => {
            let began = notes.begin();
            let written = write_preflight(&mut writer, origin, request.closes());
            notes.end(began, &request);
            (writer, closes_after(written, &request))
        }
        Verdict::Forbidden(reason) => {
            let began = notes.begin();
            let written = write_forbidden(&mut writer, reason, request.method(), request.closes());
            notes.end(began, &request);
            (writer, closes_after(written, &request))
        }
    }
}

/// Whether the connection closes after a request that was answered here.
fn closes_after(written: Result<(), Failed>, request: &Request<'_>) -> Result<bool, Failed>
    ensures closes { IfOk result (λ closes. closes ≡ request.now.closes) }
    ensures written { is_ok result ≡ is_ok written }
{
    match written {
        Ok(()) => Ok(request.closes()),
        Err(Failed) => Err(Failed),
    }
}

/// Has the service answer a request of a page of this origin, and adds the lines by which the page may read the answer. The sink is
/// returned. `K` stands for what is known before.
fn answer_to<K: Start, C, W: Sink, S: Service<C>>(
    origin: &[u8],
    request: &Request<'_>,
    writer: W,
    service: &mut S,
    context: &C,
) -> (W, Result<bool, Failed>)
    requires taken { K.taken ≡ W.taken writer }
    requires lines { K.lines ≡ allowing origin.now }
    ensures turn { (turn : Turn)
        × TakesTurn (S.answers context.now) service.old service.new (Requested request.now) turn
        × Writes (W.taken writer) (W.taken result.0) result.1 (extended (allowing origin.now) turn.text)
        × OnOk result.1 (IsTrue turn.whole)
        × IsCutOfSome turn
        × IfOk result.1 (λ closes. closes ≡ turn.closes) }
    ensures failures { CountsFailure (W.failed_writes writer) (W.failed_writes result.0) result.1 }
{
    let mut extended = Extended::<'_, W, K> {
        writer,
        origin,
        phase: Phase::InLine,
        of: PhantomData,
    };
    let Ok(closes) = service.answer(context, request, &mut extended) else {
        return (extended.into_writer(), Err(Failed));
    };
    let Ok(()) = extended.finish() else {
        return (extended.into_writer(), Err(Failed));
    };
    (extended.into_writer(), Ok(closes))
}
