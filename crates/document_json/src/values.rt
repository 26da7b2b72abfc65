//! A check of each of some values.
ghost use Rattle.std.specs.Prelude.{◌≡◌, Result, IfOk, length};
ghost use Rattle.document_json.specs.Each.{DecidesEach, each as each_of};
ghost use Rattle.document_json.specs.Steps.{Checked, Decides};

use crate::fault::Fault;
use std::alloc::Global;

/// What the check finds of each, in order, unless it refuses one.
///
/// # Errors
///
/// The fault of the first that the check refuses; and memory may be refused.
pub fn each<X: Drop, Y: Drop, F: Fn(X) -> Result<Y, Fault> + Drop>(
    alloc: Global,
    values: Vec<X>,
    check: F,
) -> Result<Vec<Y>, Fault>
    requires callable { F.IsAlwaysCallable check }
    ensures decides { (decided : X → Checked Y) → ((x : X) (found : _) → F.post check x found → Decides found (decided x))
        → DecidesEach result (each_of decided values.items) }
    ensures length { IfOk result (λ found. length found.items ≡ length values.items) }
{
    let mut found = Vec::with_capacity(alloc, values.len())?;
    for value in values {
        found.push(check(value)?)?;
    }
    Ok(found)
}
