//! The names of a journal's files.
ghost use Rattle.std.specs.Prelude.{◌≡◌, ◌≤◌, ◌↔◌, ℕ, Some, IfOk, string_bytes};
ghost use Rattle.journal.specs.Names.{last_epoch, Names};

use decimals::parse_number;
use std::alloc::{AllocError, Global};

/// How many digits the number of an epoch has in the name of its file.
const DIGITS: usize = 10;

/// The largest number of an epoch.
pub(crate) const LAST_EPOCH: u64 = 9_999_999_999;

/// What the name of an epoch's file ends with.
const ENDING: &str = ".dump";

/// The number of the epoch whose file has this name, if one has.
pub(crate) fn epoch_of(name: &str) -> Option<u64>
    ensures { (epoch : ℕ) → (result ≡ Some epoch) ↔ Names name.now epoch }
{
    let digits = name.strip_suffix(ENDING)?;
    if digits.len() != DIGITS {
        return None;
    }
    parse_number(digits)
}

/// The name of an epoch's file.
pub(crate) fn epoch_name(alloc: Global, epoch: u64) -> Result<String, AllocError>
    ensures { epoch ≤ last_epoch → IfOk result (λ name. Names (string_bytes name) epoch) }
{
    format!(in alloc; "{epoch:010}{ENDING}")
}
