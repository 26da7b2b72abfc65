//! How a broken journal is written anew.
ghost use Rattle.std.specs.Prelude.{◌≡◌, ℕ, List, true, None, IfSome};
ghost use Rattle.model.specs.Command.{Entry};
ghost use Rattle.session_api.specs.Known.{history_of};
ghost use Rattle.journal.specs.Held.{BeginsDump};
ghost use Rattle.journal_front.specs.Keeping.{HoldsAll, IsAccounted, IsKeptIn, IsLimitIn};

use crate::appending::limit_of;
use crate::epochs::Epochs;
use crate::journaled::{Account, Journaled};
use crate::naming::Keeping;
use durable_calls::KeptPlace;
use journal::{Appended, Journal};
use session_calls::SeesVersion;
use std::sync::Wait;

/// Writes a broken journal anew, with all that the session sees, synced, and says so, and up to which number updates may be shown.
/// It answers nothing where the disk refuses it, or what is new could not be had.
pub(crate) fn rewrite<R: Wait, K: SeesVersion, F: Appended, N: Keeping, E: Epochs<F>>(
    rt: &R,
    session: &mut K,
    broken: &Journal<F>,
    place: &KeptPlace<Journaled<N>>,
    account: &mut Account<N>,
    epochs: &mut E,
) -> Option<Journal<F>>
    requires appended { (entries : List Entry) → IsKeptIn F.said N.base entries → N.is_appended entries }
    requires kept { (entries : List Entry) → IsKeptIn F.told N.base entries → N.is_kept entries }
    requires limit { (number : ℕ) (entries : List Entry) → IsLimitIn F.told N.base number entries → N.is_limit number entries }
    requires accounted { IsAccounted N.base (K.known session.old) account.old }
    requires broken { broken.now.broken ≡ true }
    requires begins { BeginsDump broken.now (history_of (K.known session.old)) }
    ensures accounted { IsAccounted N.base (K.known session.new) account.new }
    ensures all { IfSome result (λ whole. HoldsAll whole (K.known session.new)) }
    ensures begins { result ≡ None → BeginsDump broken.now (history_of (K.known session.new)) }
{
    if session.refresh().is_err() {
        return None;
    }
    let _recalled = session.place();
    let last = session.version();
    let Some(whole) = epochs.rewrite(broken, last) else {
        return None;
    };
    if !account.append(last) {
        return None;
    }
    account.keep(limit_of(last));
    place.say_synced(rt, account.journaled());
    Some(whole)
}
