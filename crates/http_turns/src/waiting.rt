//! Waits for changes.
ghost use Rattle.std.specs.Prelude.{◌≡◌, List, max};
ghost use Rattle.model.specs.History.{now};
ghost use Rattle.http_turns.specs.ChangesWanted.{has_changes};
ghost use Rattle.session_api.specs.SessionCall.{SessionCall};
ghost use Rattle.http_turns.specs.CallsOfRequest.{WaitsFor, WaitsTurn, WaitsTurns};
ghost use Rattle.session_api.specs.Known.{history_of};

use crate::setting::Setting;
use document_id::DocIds;
use session_api::{CallFault, Calls, Viewer};

/// Whether documents that are wanted have been seen with an update number above `since`.
pub(crate) fn has_changes<S: Viewer>(session: &S, since: u64, ids: &Option<DocIds>) -> bool
    ensures { result ≡ has_changes (now (history_of (S.known session.now))) since ids.now }
{
    session.count_changes(since, ids) > 0
}

/// Waits until an update number above `past` has been seen. Where some documents alone are wanted, it waits until one of
/// them has been seen with a number above `cursor`. It says whether that came while the wait lasted.
pub(crate) fn wait_for_changes<X, S: Calls<X>>(
    session: &mut S,
    setting: &Setting<'_, X>,
    past: u64,
    cursor: u64,
    ids: &Option<DocIds>,
) -> Result<bool, CallFault>
    ensures { (calls : List SessionCall) × WaitsFor S.goes S.known setting.now past cursor ids.now
        session.old calls session.new result }
{
    match ids {
        Some(_) => wait_for_some(session, setting, cursor, ids),
        None => session.wait_past(setting.context, past, setting.turns),
    }
}

/// Waits turn by turn, as often as a wait looks, until one of the documents has been seen with a number above `cursor`.
fn wait_for_some<X, S: Calls<X>>(
    session: &mut S,
    setting: &Setting<'_, X>,
    cursor: u64,
    ids: &Option<DocIds>,
) -> Result<bool, CallFault>
    ensures { (calls : List SessionCall) × WaitsTurns S.goes S.known (max setting.now 1) cursor ids.now
        session.old calls session.new result }
{
    for _turn in 0..setting.turns.max(1) {
        match wait_a_turn(session, setting, cursor, ids) {
            Ok(true) => return Ok(true),
            Ok(false) => {}
            Err(fault) => return Err(fault),
        }
    }
    Ok(false)
}

/// Waits for one turn, and says whether one of the documents has a number above `cursor` among the updates that came with
/// it: of those seen before none has.
fn wait_a_turn<X, S: Calls<X>>(
    session: &mut S,
    setting: &Setting<'_, X>,
    cursor: u64,
    ids: &Option<DocIds>,
) -> Result<bool, CallFault>
    ensures { (call : SessionCall) × WaitsTurn S.goes S.known cursor ids.now session.old call session.new result }
{
    let seen = session.update_seq();
    match session.wait_past(setting.context, seen, 1) {
        Ok(true) => Ok(has_changes(session, cursor.max(seen), ids)),
        Ok(false) => Ok(false),
        Err(fault) => Err(fault),
    }
}
