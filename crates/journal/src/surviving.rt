//! What is there after any end: laws over every file that an end may leave.
//!
//! There is nothing to run here. What a file holds, and what a sync covered of it, is known of a file whose bytes are known;
//! that a disk keeps to this is trusted.
ghost use Rattle.std.specs.Prelude.{◌≡◌, ◌+◌, ◌≤◌, ℕ, List, length, true};
ghost use Rattle.model.specs.History.{Chronicle, Extends, now};
ghost use Rattle.replay_cli.specs.Successors.{raise};
ghost use Rattle.journal.specs.Held.{up_to};
ghost use Rattle.journal.specs.Kept.{Kept};
ghost use Rattle.journal.specs.Refusing.{IsEndedBy};
ghost use Rattle.journal.specs.Restoring.{IsRestored};
ghost use Rattle.journal.specs.Survives.{HoldsLegal, IsLeft, Survives, SurvivesInOrder};
ghost use Rattle.journal.specs.declared.restored.End.TheVariants as end;
ghost use Rattle.journal.specs.declared.restored.Raise.{Raise as Raising};
ghost use Rattle.journal.specs.declared.restored.Restored.{Restored as Left};
ghost use Rattle.replay_cli.specs.declared.verdict.Verdict.{Verdict};

/// No start is refused with a verdict, whatever bytes lie behind what a sync covered, where it takes no more for synced than that.
pub fn no_start_is_refused()
    ensures { (k : Kept) (h : Chronicle) (text : List ℕ) (synced : ℕ) → HoldsLegal k h → (left : Survives k text)
        → synced ≤ length left.covered → (verdict : Verdict) (at : ℕ) → IsEndedBy synced verdict at text → ⊥ }
{}

/// After any end, a start begins with a history that has all entries which a sync covered, in order and first.
pub fn what_was_synced_is_there()
    ensures { (k : Kept) (h : Chronicle) (text : List ℕ) (synced : ℕ) (raising : Raising) (r : Left) → HoldsLegal k h
        → Survives k text → (restored : IsRestored text synced raising r) → Extends restored.history (up_to h k.synced) }
{}

/// After the end of the process, a start begins with just the history whose entries were appended.
pub fn what_was_appended_is_there()
    ensures history { (k : Kept) (h : Chronicle) (text : List ℕ) (synced : ℕ) (raising : Raising) (r : Left) → HoldsLegal k h
        → IsLeft k text → (restored : IsRestored text synced raising r) → restored.history ≡ h }
    ensures whole { (k : Kept) (h : Chronicle) (text : List ℕ) (synced : ℕ) (raising : Raising) (r : Left) → HoldsLegal k h
        → IsLeft k text → IsRestored text synced raising r → r.end ≡ end.Whole }
{}

/// After the end of the machine, where what was appended went to the disk in order, a start begins with a beginning of the
/// history whose entries were appended, which has all that a sync covered.
pub fn what_is_there_is_a_beginning()
    ensures beginning { (k : Kept) (h : Chronicle) (text : List ℕ) (synced : ℕ) (raising : Raising) (r : Left) → HoldsLegal k h
        → SurvivesInOrder k text → (restored : IsRestored text synced raising r) → Extends h restored.history }
    ensures synced { (k : Kept) (h : Chronicle) (text : List ℕ) (synced : ℕ) (raising : Raising) (r : Left) → HoldsLegal k h
        → SurvivesInOrder k text → (restored : IsRestored text synced raising r) → Extends restored.history (up_to h k.synced) }
{}

/// No update number is given twice: what begins goes on above each number that a sync covered, where it is raised above each
/// that was shown by then, and after the end of the process above each that was given.
pub fn no_number_is_given_twice()
    ensures synced { (k : Kept) (h : Chronicle) (text : List ℕ) (synced : ℕ) (raising : Raising) (r : Left) → HoldsLegal k h
        → Survives k text → IsRestored text synced raising r → (n : ℕ) → n ≤ (now (up_to h k.synced)).update_seq → n ≤ (now r.version).update_seq }
    ensures raised { (k : Kept) (h : Chronicle) (text : List ℕ) (synced : ℕ) (raising : Raising) (r : Left) → HoldsLegal k h
        → Survives k text → IsRestored text synced raising r → r.raised ≡ true
        → (n : ℕ) → n ≤ (now (up_to h k.synced)).update_seq + raise → n ≤ (now r.version).update_seq }
    ensures appended { (k : Kept) (h : Chronicle) (text : List ℕ) (synced : ℕ) (raising : Raising) (r : Left) → HoldsLegal k h
        → IsLeft k text → IsRestored text synced raising r → (n : ℕ) → n ≤ (now h).update_seq → n ≤ (now r.version).update_seq }
{}
