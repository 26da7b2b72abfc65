//! What a journal gets at the end of its epoch.
ghost use Rattle.std.specs.Prelude.{◌≡◌, true, false, Err, OnOk};
ghost use Rattle.model.specs.History.{Chronicle, Extends};
ghost use Rattle.journal.specs.Held.{BeginsDump, HoldsDump};
ghost use Rattle.journal.specs.declared.fault.JournalFault.TheVariants as fault;
ghost use Rattle.journal_front.specs.Server.{EndsWhole, syncs};

use crate::naming::Keeping;
use crate::notices::Notices;
use crate::policy::SyncPolicy;
use crate::service::Service;
use journal::{Appended, Journal, JournalFault};
use snapshots::Version;
use std::alloc::{AllocError, Global};

/// Appends to the journal of an epoch what it lacks of the last version, and where the policy asks for syncs makes all of it
/// durable. Where it breaks by that, this is reported.
///
/// # Errors
///
/// Memory was refused for what it lacks.
pub(crate) fn complete<F: Appended, N: Keeping, L: Notices<F>>(
    alloc: Global,
    service: &Service<'_, L>,
    journal: &mut Journal<F>,
    last: &Version,
) -> Result<(), AllocError>
    requires reported { L.reported → N.has_failed }
    requires broken { journal.old.broken ≡ true → N.has_failed }
    requires held { journal.old.broken ≡ false → (h : Chronicle) × HoldsDump journal.old h × Extends last.now h }
    requires begins { BeginsDump journal.old last.now }
    ensures { OnOk result (EndsWhole (syncs service.now.policy) N.has_failed last.now journal.new) }
{
    if journal.is_broken() {
        return Ok(());
    }
    match append_rest(alloc, service.policy, journal, last) {
        Ok(()) => Ok(()),
        Err(JournalFault::Memory) => Err(AllocError),
        Err(JournalFault::Failed) => {
            service.notices.failed(journal);
            Ok(())
        }
    }
}

/// Appends what the journal lacks of the version, and where the policy asks for syncs makes all of it durable.
fn append_rest<F: Appended>(
    alloc: Global,
    policy: SyncPolicy,
    journal: &mut Journal<F>,
    last: &Version,
) -> Result<(), JournalFault>
    requires held { (h : Chronicle) × HoldsDump journal.old h × Extends last.now h }
    ensures whole { OnOk result (HoldsDump journal.new last.now
        × (syncs policy ≡ true → journal.new.synced ≡ journal.new.place)) }
    ensures failed { result ≡ Err fault.Failed
        → (journal.new.broken ≡ true) × BeginsDump journal.new last.now }
{
    journal.append(alloc, last)?;
    if policy.syncs() && journal.synced() != journal.place() {
        journal.sync()?;
    }
    Ok(())
}
