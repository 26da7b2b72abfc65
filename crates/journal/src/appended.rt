//! A file that is appended to.
ghost use Rattle.std.specs.Prelude.{◌≡◌, ◌+◌, ◌≤◌, ℕ, length, List, Option, IfSome, MatchResult, OnOk};
ghost use Rattle.streams.specs.Counts.{CountsFailure};
ghost use Rattle.journal.specs.Files.{Takes};

use streams::Failed;

/// A file that is appended to, and made durable by syncs.
pub trait Appended: Drop {
    /// The bytes that it has taken, where they are known.
    ghost taken: { Self → Option (List ℕ) };

    /// Those of them that the last good sync covered, where they are known.
    ghost covered: { Self → Option (List ℕ) };

    /// How many bytes it has, those that a failed append may have left aside.
    ghost size: { Self → ℕ };

    /// How many of them the last good sync covered.
    ghost synced_size: { Self → ℕ };

    /// How many appends and syncs have failed.
    ghost failed: { Self → ℕ };

    /// A sync of a file that held these bytes has said that they are durable.
    ghost told: { Option (List ℕ) → Type 0 };

    /// An append has said that it was done, after which the file held these bytes.
    ghost said: { Option (List ℕ) → Type 0 };

    /// Appends all the bytes.
    ///
    /// # Errors
    ///
    /// A write failed, and the count of failures says so. A beginning of the bytes, not all, may have been appended.
    fn append(&mut self, bytes: &[u8]) -> Result<(), Failed>
        ensures written { Takes (taken self.old) (taken self.new) result bytes.now }
        ensures covered { covered self.new ≡ covered self.old }
        ensures grown { MatchResult result (λ _. size self.new ≡ size self.old + length bytes.now)
            (λ _. size self.old ≤ size self.new) }
        ensures synced { synced_size self.new ≡ synced_size self.old }
        ensures said { OnOk result (said (taken self.new)) }
        ensures failures { CountsFailure (failed self.old) (failed self.new) result };

    /// Makes durable all that was appended.
    ///
    /// # Errors
    ///
    /// The sync failed, and the count of failures says so. What an earlier sync covered stays covered; of what was appended
    /// since, nothing is known.
    fn sync(&mut self) -> Result<(), Failed>
        ensures taken { taken self.new ≡ taken self.old }
        ensures covered { MatchResult result (λ _. covered self.new ≡ taken self.old)
            (λ _. covered self.new ≡ covered self.old) }
        ensures size { size self.new ≡ size self.old }
        ensures synced { MatchResult result (λ _. synced_size self.new ≡ size self.old)
            (λ _. synced_size self.new ≡ synced_size self.old) }
        ensures told { OnOk result (told (taken self.old)) }
        ensures failures { CountsFailure (failed self.old) (failed self.new) result };

    /// Known bytes are as many as are counted.
    ghost counted: { (f : Self) → IfSome (taken f) (λ text. length text ≡ size f) };

    /// Those that are covered are as well.
    ghost counted_synced: { (f : Self) → IfSome (covered f) (λ text. length text ≡ synced_size f) };
}
