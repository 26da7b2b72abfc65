//! What a database begins with, once a text was read.
ghost use Rattle.std.specs.Prelude.{◌≡◌, ◌==◌, ◌⊎◌, true, false, Err, IfOk};
ghost use Rattle.model.specs.Database.{IsDatabase};
ghost use Rattle.replay_cli.specs.Successors.{AreTooLarge, HasRoom, base_after};
ghost use Rattle.journal.specs.Held.{begun as begun_over};
ghost use Rattle.journal.specs.Restoring.{IsBegunFrom, goes_on, is_behind, is_first_alone, keeps_epoch, raises};
ghost use Rattle.journal.specs.declared.restored.Unrestored.TheVariants as unrestored;

use crate::replayed::Replayed;
use crate::restored::{End, Raise, Restored, Unrestored};
use replay_cli::base_after;
use snapshots::Version;
use std::alloc::Global;

/// What a database begins with, of what was replayed to the end.
pub(crate) fn finish(
    alloc: Global,
    begun: Version,
    replayed: Replayed,
    raise: Raise,
) -> Result<Restored, Unrestored>
    requires database { IsDatabase replayed.database }
    requires room { HasRoom replayed.database }
    requires begun { begun ≡ begun_over begun.base }
    ensures places { IfOk result (λ r. r.places ≡ replayed.place) }
    ensures taken { IfOk result (λ r. r.taken ≡ replayed.taken) }
    ensures end { IfOk result (λ r. r.end ≡ replayed.end) }
    ensures begun { IfOk result (λ r. IsBegunFrom raise r begun.base replayed.database) }
    ensures judged { (verdict : _) (at : _) → result ≡ Err (unrestored.Judged verdict at) → ⊥ }
    ensures too_large { result ≡ Err unrestored.NumbersTooLarge → (raises raise replayed.end ≡ true)
        × (goes_on raise replayed.end replayed.place ≡ false) × AreTooLarge (base_after true replayed.database) }
{
    let Replayed {
        database,
        place,
        taken,
        end,
    } = replayed;
    if goes_on(raise, end, place) {
        return Ok(Restored {
            version: begun,
            places: place,
            taken,
            end,
            raised: false,
            goes_on: true,
        });
    }
    let raised = raises(raise, end);
    let Some(base) = base_after(&database, raised)? else {
        return Err(Unrestored::NumbersTooLarge);
    };
    let version = Version::over(alloc, base)?;
    Ok(Restored {
        version,
        places: place,
        taken,
        end,
        raised,
        goes_on: false,
    })
}

/// Whether the same epoch goes on in its file.
fn goes_on(raise: Raise, end: End, places: u64) -> bool
    ensures { result ≡ goes_on raise end places }
{
    keeps_epoch(raise) && is_first_alone(end, places)
}

/// Whether an epoch may go on in a file that has its first line alone.
fn keeps_epoch(raise: Raise) -> bool
    ensures { result ≡ keeps_epoch raise }
{
    match raise {
        Raise::Never => true,
        Raise::IfTorn => true,
        Raise::BehindEntries => true,
        Raise::Always => false,
    }
}

/// Whether a text is a first line and nothing else.
fn is_first_alone(end: End, places: u64) -> bool
    ensures { result ≡ is_first_alone end places }
{
    match end {
        End::Whole => places == 0,
        End::Cut => false,
        End::Torn => false,
    }
}

/// Whether the numbers of the next epoch are raised, behind a text that ends so.
fn raises(raise: Raise, end: End) -> bool
    ensures { result ≡ raises raise end }
{
    match raise {
        Raise::Never => false,
        Raise::IfTorn => is_behind(end),
        Raise::BehindEntries => true,
        Raise::Always => true,
    }
}

/// Whether anything lies behind the lines that were taken.
fn is_behind(end: End) -> bool
    ensures { result ≡ is_behind end }
{
    match end {
        End::Whole => false,
        End::Cut => true,
        End::Torn => true,
    }
}
