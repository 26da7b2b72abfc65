//! How two sessions meet.
ghost use Rattle.std.specs.Prelude.{◌≡◌, ◌↔◌, ◌⊎◌, length, true, Err, IfOk, IfErr, IfSome, OnErr};
ghost use mathlib.Core.List.{IsPrefix};
ghost use Rattle.version_log.specs.Histories.{Grows};
ghost use Rattle.sessions.specs.Known.{seen, SeesOwn};
ghost use Rattle.sessions.specs.Calls.{Looks};
ghost use Rattle.sessions.specs.declared.fault.Fault.TheVariants as fault;

use crate::fault::Fault;
use crate::session::{Session, later_of};
use updater_state::Opening;
use version_log::Published;

impl<C: Drop, J: Opening, G: Drop> Session<C, J, G> {
    /// Afterwards both sessions, which are of one opened database, have seen one history. The answer
    /// is its length. It waits for nobody and takes no memory.
    pub fn meet(&mut self, other: &mut Session<C, J, G>) -> Result<u64, Fault>
        ensures place { IfOk result (λ place. place ≡ length (seen self.new)) }
        ensures one { IfOk result (λ _. self.new.published ≡ other.new.published) }
        ensures looks { IfOk result (λ _. Looks J.base self.old self.new) }
        ensures other_looks { IfOk result (λ _. Looks J.base other.old other.new) }
        ensures kept { OnErr result (self.new ≡ self.old) }
        ensures other_kept { OnErr result (other.new ≡ other.old) }
        ensures lost { (result ≡ Err fault.Lost) ↔ ((self.old.lost ≡ true) ⊎ (other.old.lost ≡ true)) }
        ensures refused { IfErr result (λ e. (e ≡ fault.Lost) ⊎ (e ≡ fault.EntryRefused)) }
    {
        if self.lost || other.lost {
            return Err(Fault::Lost);
        }
        let Some((mine, theirs)) = self.observe_both(other) else {
            return Err(Fault::EntryRefused);
        };
        let place = mine.version().place();
        self.see(mine);
        other.see(theirs);
        Ok(place)
    }

    /// What is published now, which is what was seen or later. Nothing where that is refused.
    fn observe(&mut self) -> Option<Published<J>>
        ensures same { self.new ≡ self.old }
        ensures later { IfSome result (λ found. IsPrefix self.old.published found) }
        ensures grows { IfSome result (λ found. Grows J.base found) }
    {
        if let Some(found) = self.later().ok()? {
            return Some(found);
        }
        let same = self.latest.share().ok()?;
        Some(same)
    }

    /// What is published now, or what another session saw, whichever is later.
    fn observe_with(&mut self, theirs: Published<J>) -> Option<Published<J>>
        requires grows { Grows J.base theirs }
        ensures same { self.new ≡ self.old }
        ensures later { IfSome result (λ found. IsPrefix self.old.published found) }
        ensures theirs { IfSome result (λ found. IsPrefix theirs found) }
        ensures grows { IfSome result (λ found. Grows J.base found) }
    {
        let mine = self.observe()?;
        Some(later_of(mine, theirs))
    }

    /// The later of what both see now, for each of them. Nothing where that is refused, or has not just the
    /// entries with a receipt of each.
    fn observe_both(&mut self, other: &mut Session<C, J, G>) -> Option<(Published<J>, Published<J>)>
        ensures same { self.new ≡ self.old }
        ensures other_same { other.new ≡ other.old }
        ensures later { IfSome result (λ found. IsPrefix self.old.published found.0) }
        ensures other_later { IfSome result (λ found. IsPrefix other.old.published found.0) }
        ensures own { IfSome result (λ found. SeesOwn (record self.old { published = found.0 })) }
        ensures other_own { IfSome result (λ found. SeesOwn (record other.old { published = found.0 })) }
        ensures one { IfSome result (λ found. found.1 ≡ found.0) }
        ensures grows { IfSome result (λ found. Grows J.base found.0) }
    {
        let mine = self.observe()?;
        let last = other.observe_with(mine)?;
        if !self.has_own(&last) || !other.has_own(&last) {
            return None;
        }
        let same = last.share().ok()?;
        Some((last, same))
    }
}
