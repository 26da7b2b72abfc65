//! A flag by which connections end early.
ghost use Rattle.std.specs.Prelude.{◌≡◌, IsSome, true};

use std::sync::atomic::{AtomicBool, Ordering};

/// Whether a flag is given and set.
pub fn is_set(flag: Option<&AtomicBool>) -> bool
    ensures given { result ≡ true → IsSome flag.entry }
{
    match flag {
        Some(flag) => flag.load(Ordering::SeqCst),
        None => false,
    }
}
