//! What is known of a journal.
ghost use Rattle.std.specs.Prelude.{◌≡◌, ℕ, List, true};
ghost use mathlib.Core.List.{IsPrefix};
ghost use Rattle.model.specs.Command.{Entry};
ghost use Rattle.durable_calls.specs.Kept.{IsShown};

use std::marker::PhantomData;
use std::sync::atomic::Rule;

/// How far a journal has come, as far as somebody knows. The entries which one knows that a journal has are a beginning of those
/// which another one knows of, or go on from them.
pub trait Progress: Drop {
    /// What is known once the journal has these entries, of which there are some: they are there after the end of the process.
    ghost is_appended: { List Entry → Type 0 };

    /// What is known once these entries are kept, of which there are some: they are there after the end of the machine.
    ghost is_kept: { List Entry → Type 0 };

    /// What is known of a limit up to which update numbers may be shown, once these entries are kept.
    ghost is_limit: { ℕ → List Entry → Type 0 };

    /// What is known once the journal has failed.
    ghost has_failed: { Type 0 };

    /// The entries which it is known that the journal has.
    ghost journaled: { Self → List Entry };

    /// The same once more.
    fn again(&self) -> Self
        ensures same { journaled result ≡ journaled self.now };

    /// Knows afterwards what the other one knows, where that is more.
    fn learn(&mut self, other: &Self)
        ensures more { IsPrefix (journaled self.old) (journaled self.new) };

    /// Whether what has so many entries and this update number may be shown.
    fn covers(&self, place: u64, number: u64, awaits: bool) -> bool
        ensures shown { result ≡ true → IsShown is_appended is_kept is_limit awaits place number (journaled self.now) };

    /// How many entries are appended.
    fn appended(&self) -> u64;

    /// How many of them are kept.
    fn kept(&self) -> u64;

    /// Up to which number updates may be shown.
    fn limit(&self) -> u64;
}

/// The rule of a word that is above 0 once the journal has failed.
pub struct FailureOf<G> {
    of: PhantomData<G>,
}

impl<G: Progress> Rule for FailureOf<G> {
    ghost use Rattle.std.specs.Prelude.{◌<◌};

    ghost invariant = { λ failures. 0 < failures → G.has_failed };
}
