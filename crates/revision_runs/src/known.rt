//! Runs that are known to be there.
ghost use Rattle.std.specs.Prelude.{◌≡◌, Some};
ghost use Rattle.model.specs.Map.{get};
ghost use Rattle.model.specs.Revision.{Rev};
ghost use Rattle.revision_runs.specs.Runs.{EndsAt, HangsUnder, IsNearestUnder};
ghost use Rattle.revision_runs.specs.declared.run.Run as declared;

use crate::run::Run;
use crate::runs::Runs;
use revision_id::RevId;

/// The run with this top.
pub(crate) fn run_of(runs: &Runs, top: RevId) -> Run
    requires { (run : declared.Run) × (get runs.now top ≡ Some run) }
    ensures { get runs.now top ≡ Some result }
{
    let Some(run) = runs.get(top) else {
        unreachable!();
    };
    run
}

/// The top of a run with this bottom.
pub(crate) fn top_of(runs: &Runs, bottom: RevId) -> RevId
    requires { (top : Rev) × EndsAt runs.now bottom top }
    ensures { EndsAt runs.now bottom result }
{
    let Some(top) = runs.ending_at(bottom) else {
        unreachable!();
    };
    top
}

/// Of the tops that are children of a fork the one that is nearest to a leaf.
pub(crate) fn nearest_of(runs: &Runs, fork: RevId) -> RevId
    requires { (top : Rev) × HangsUnder runs.now fork top }
    ensures { IsNearestUnder runs.now fork result }
{
    let Some(top) = runs.nearest_under(fork) else {
        unreachable!();
    };
    top
}
