//! What a pass of a journal does.
ghost use Rattle.std.specs.Prelude.{◌≡◌, ◌≤◌, ◌+◌, ℕ, List, true, Err, OnOk};
ghost use mathlib.Core.List.{IsPrefix};
ghost use Rattle.model.specs.Command.{Entry};
ghost use Rattle.model.specs.History.{now};
ghost use Rattle.session_api.specs.Known.{history_of};
ghost use Rattle.journal.specs.Held.{BeginsDump};
ghost use Rattle.journal.specs.declared.fault.JournalFault.TheVariants as fault;
ghost use Rattle.replay_cli.specs.Successors.{raise};
ghost use Rattle.journal_front.specs.Keeping.{HoldsAll, IsAccounted, IsBehind, IsKeptIn, IsLimitIn};

use crate::journaled::{Account, Journaled};
use crate::naming::Keeping;
use durable_calls::KeptPlace;
use journal::{Appended, Journal, JournalFault};
use replay_cli::RAISE;
use session_calls::SeesVersion;
use snapshots::Version;
use std::alloc::Global;
use std::sync::Wait;

/// Appends in one write what the session sees and the journal doesn't have, and says so. With `syncs` all of it is made durable
/// too.
///
/// # Errors
///
/// [`JournalFault::Memory`] where what is new could not be had, or memory was refused. [`JournalFault::Failed`] where the journal
/// is broken.
pub(crate) fn pass<R: Wait, K: SeesVersion, F: Appended, N: Keeping>(
    alloc: Global,
    rt: &R,
    session: &mut K,
    journal: &mut Journal<F>,
    place: &KeptPlace<Journaled<N>>,
    account: &mut Account<N>,
    syncs: bool,
) -> Result<(), JournalFault>
    requires appended { (entries : List Entry) → IsKeptIn F.said N.base entries → N.is_appended entries }
    requires kept { (entries : List Entry) → IsKeptIn F.told N.base entries → N.is_kept entries }
    requires limit { (number : ℕ) (entries : List Entry) → IsLimitIn F.told N.base number entries → N.is_limit number entries }
    requires accounted { IsAccounted N.base (K.known session.old) account.old }
    requires behind { IsBehind journal.old (K.known session.old) }
    ensures accounted { IsAccounted N.base (K.known session.new) account.new }
    ensures all { OnOk result (HoldsAll journal.new (K.known session.new)) }
    ensures memory { result ≡ Err fault.Memory → IsBehind journal.new (K.known session.new) }
    ensures failed { result ≡ Err fault.Failed → journal.new.broken ≡ true }
    ensures begins { BeginsDump journal.new (history_of (K.known session.new)) }
{
    append_new(alloc, rt, session, journal, place, account)?;
    if !syncs {
        return Ok(());
    }
    sync_all(rt, &*session, journal, place, account)
}

/// Appends in one write what the session sees and the journal doesn't have, and says so.
fn append_new<R: Wait, K: SeesVersion, F: Appended, N: Keeping>(
    alloc: Global,
    rt: &R,
    session: &mut K,
    journal: &mut Journal<F>,
    place: &KeptPlace<Journaled<N>>,
    account: &mut Account<N>,
) -> Result<(), JournalFault>
    requires appended { (entries : List Entry) → IsKeptIn F.said N.base entries → N.is_appended entries }
    requires accounted { IsAccounted N.base (K.known session.old) account.old }
    requires behind { IsBehind journal.old (K.known session.old) }
    ensures accounted { IsAccounted N.base (K.known session.new) account.new }
    ensures account { OnOk result (account.new ≡ (K.known session.new).seen) }
    ensures all { OnOk result (HoldsAll journal.new (K.known session.new)) }
    ensures memory { result ≡ Err fault.Memory → IsBehind journal.new (K.known session.new) }
    ensures failed { result ≡ Err fault.Failed → journal.new.broken ≡ true }
    ensures begins { BeginsDump journal.new (history_of (K.known session.new)) }
{
    append_seen(alloc, session, journal)?;
    if !account.append(session.version()) {
        return Err(JournalFault::Memory);
    }
    place.say(rt, account.journaled());
    Ok(())
}

/// Appends in one write what the session sees and the journal doesn't have.
fn append_seen<K: SeesVersion, F: Appended>(
    alloc: Global,
    session: &mut K,
    journal: &mut Journal<F>,
) -> Result<(), JournalFault>
    requires behind { IsBehind journal.old (K.known session.old) }
    ensures base { (K.known session.new).base ≡ (K.known session.old).base }
    ensures grows { IsPrefix (K.known session.old).seen (K.known session.new).seen }
    ensures all { OnOk result (HoldsAll journal.new (K.known session.new)) }
    ensures said { OnOk result (F.said journal.new.taken) }
    ensures memory { result ≡ Err fault.Memory → IsBehind journal.new (K.known session.new) }
    ensures failed { result ≡ Err fault.Failed → journal.new.broken ≡ true }
    ensures begins { BeginsDump journal.new (history_of (K.known session.new)) }
{
    if session.refresh().is_err() {
        return Err(JournalFault::Memory);
    }
    let _recalled = session.place();
    journal.append(alloc, session.version())
}

/// Makes durable all that was appended, and says so, and up to which number updates may be shown. Where nothing was appended since
/// the last sync, nothing is done.
pub(crate) fn sync_all<R: Wait, K: SeesVersion, F: Appended, N: Keeping>(
    rt: &R,
    session: &K,
    journal: &mut Journal<F>,
    place: &KeptPlace<Journaled<N>>,
    account: &mut Account<N>,
) -> Result<(), JournalFault>
    requires kept { (entries : List Entry) → IsKeptIn F.told N.base entries → N.is_kept entries }
    requires limit { (number : ℕ) (entries : List Entry) → IsLimitIn F.told N.base number entries → N.is_limit number entries }
    requires base { (K.known session.now).base ≡ N.base }
    requires account { account.old ≡ (K.known session.now).seen }
    requires all { HoldsAll journal.old (K.known session.now) }
    ensures accounted { IsAccounted N.base (K.known session.now) account.new }
    ensures all { OnOk result (HoldsAll journal.new (K.known session.now)) }
    ensures synced { OnOk result (journal.new.synced ≡ journal.new.place) }
    ensures memory { result ≡ Err fault.Memory → ⊥ }
    ensures failed { result ≡ Err fault.Failed → journal.new.broken ≡ true }
    ensures begins { BeginsDump journal.new (history_of (K.known session.now)) }
{
    if journal.synced() == journal.place() {
        return Ok(());
    }
    journal.sync()?;
    account.keep(limit_of(session.version()));
    place.say_synced(rt, account.journaled());
    Ok(())
}

/// Up to which number updates may be shown once a sync has covered this version: an end of the machine raises numbers by as much.
pub(crate) fn limit_of(version: &Version) -> u64
    ensures { result ≤ (now version.now).update_seq + raise }
{
    version
        .database()
        .documents()
        .update_seq()
        .saturating_add(RAISE)
}
