//! The next epoch of a version.
ghost use Rattle.std.specs.Prelude.{◌≡◌, [], Some, IfOk};
ghost use Rattle.model.specs.History.{now, successor};

use crate::replies::push_content;
use snapshots::Version;
use std::test::Fail;

/// The version with which the next epoch begins, with what is in it.
pub(crate) fn reopened(version: &Version, text: &mut String) -> Result<Version, Fail>
    ensures { IfOk result (λ v. v ≡ record { base = Some (successor (now version.now)); entries = [] }) }
{
    if !version.has_successor() {
        return Err("no successor".into());
    }
    let next = version.successor()?;
    push_content(text, &next)?;
    Ok(next)
}
