//! What is reported of a journal.
ghost use Rattle.std.specs.Prelude.{◌≡◌, true};

use journal::{Appended, Journal};

/// What is reported of a journal, as on standard error.
pub trait Notices<F: Appended> {
    /// It was reported that nothing more is appended.
    ghost reported: { Type 0 };

    /// A write or a sync of this journal failed. Nothing more is appended to it until it is written anew.
    fn failed(&self, journal: &Journal<F>)
        requires broken { journal.now.broken ≡ true }
        ensures reported { reported };

    /// The journal was written anew, and entries are appended to it again.
    fn mended(&self);

    /// There is no thread for the keeper, so nothing more is written.
    fn no_keeper(&self)
        ensures reported { reported };
}
