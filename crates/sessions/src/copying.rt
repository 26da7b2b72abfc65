//! How the copy of a compaction is made, and follows what others write.
ghost use Rattle.std.specs.Prelude.{◌≡◌, ◌-◌, ◌<◌, length, IfOk, IfErr, OnOk};
ghost use Rattle.model.specs.History.{now, Extends};
ghost use Rattle.model.specs.Compaction.{touched};
ghost use Rattle.sessions.specs.Faults.{IsOfCopy};

use crate::fault::Fault;
use crate::shared::Shared;
use compactor::Compaction;
use snapshots::Version;
use updater_state::{Gate, Opening, Point};

/// Makes the whole copy, slice by slice.
pub(crate) fn slice_all<C: Drop, J: Opening, G: Gate + Drop>(
    shared: &Shared<C, J, G>,
    session: u16,
    copy: &mut Compaction,
) -> Result<(), Fault>
    ensures sliced { OnOk result (copy.new.left ≡ 0) }
    ensures seen { copy.new.seen ≡ copy.old.seen }
    ensures fault { IfErr result IsOfCopy }
{
    let mut left = copy.left();
    while left > 0 {
        left = next_slice(shared, copy)?;
        shared.gate.at(Point::Sliced, session);
    }
    Ok(())
}

/// Makes the next slice, of as many documents as the configuration says, and answers how many are left.
fn next_slice<C: Drop, J: Opening, G: Drop>(
    shared: &Shared<C, J, G>,
    copy: &mut Compaction,
) -> Result<u64, Fault>
    ensures left { IfOk result (λ left. left ≡ copy.new.left) }
    ensures slice { OnOk result (copy.new.left ≡ copy.old.left - J.config.slice) }
    ensures some { 0 < J.config.slice }
    ensures seen { copy.new.seen ≡ copy.old.seen }
    ensures fault { IfErr result IsOfCopy }
{
    let n = shared.slice();
    let left = copy.slice(n)?;
    Ok(left)
}

/// Takes over the first that were touched, as many as a slice has, and answers how many are left.
fn catch_up<C: Drop, J: Opening, G: Drop>(
    shared: &Shared<C, J, G>,
    copy: &mut Compaction,
    version: &Version,
) -> Result<u64, Fault>
    requires sliced { copy.old.left ≡ 0 }
    requires follows { Extends version.now copy.old.seen }
    ensures left { IfOk result (λ left. left ≡ length (touched (now version.now) copy.old.marks) - J.config.slice) }
    ensures rest { IfOk result (λ left. left ≡ length (touched (now version.now) copy.new.marks)) }
    ensures some { 0 < J.config.slice }
    ensures sliced { OnOk result (copy.new.left ≡ 0) }
    ensures seen { OnOk result (copy.new.seen ≡ version.now) }
    ensures fault { IfErr result IsOfCopy }
{
    let _recalled = version.place();
    let n = shared.slice();
    let left = copy.catch_up(version, n)?;
    Ok(left)
}

/// Takes over all that was touched up to a version, slice by slice.
pub(crate) fn catch_up_all<C: Drop, J: Opening, G: Drop>(
    shared: &Shared<C, J, G>,
    copy: &mut Compaction,
    version: &Version,
) -> Result<(), Fault>
    requires sliced { copy.old.left ≡ 0 }
    requires follows { Extends version.now copy.old.seen }
    ensures sliced { OnOk result (copy.new.left ≡ 0) }
    ensures seen { OnOk result (copy.new.seen ≡ version.now) }
    ensures fault { IfErr result IsOfCopy }
{
    let mut left = catch_up(shared, copy, version)?;
    while left > 0 {
        left = catch_up(shared, copy, version)?;
    }
    Ok(())
}
