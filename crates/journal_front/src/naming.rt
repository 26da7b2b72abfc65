//! The name of a journal.
ghost use Rattle.std.specs.Prelude.{ℕ, List};
ghost use Rattle.model.specs.Command.{Entry};

use std::marker::Brand;
use version_log::Naming;

/// Names the journal of an epoch, with the log of what it has and the base of the epoch. No value of it is made.
pub trait Keeping: Naming {
    /// What is known once the journal has these entries: they are there after the end of the process.
    ghost is_appended: { List Entry → Type 0 };

    /// What is known once these entries are kept: they are there after the end of the machine.
    ghost is_kept: { List Entry → Type 0 };

    /// What is known of a limit up to which update numbers may be shown, once these entries are kept.
    ghost is_limit: { ℕ → List Entry → Type 0 };

    /// What is known once the journal has failed.
    ghost has_failed: { Type 0 };
}

impl Keeping for Brand {
    ghost use Rattle.std.specs.Prelude.{⊤};

    ghost is_appended = { λ _. ⊤ };

    ghost is_kept = { λ _. ⊤ };

    ghost is_limit = { λ _ _. ⊤ };

    ghost has_failed = { ⊤ };
}
