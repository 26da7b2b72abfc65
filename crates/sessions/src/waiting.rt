//! How a session waits for updates.
ghost use Rattle.std.specs.Prelude.{◌≡◌, ◌≤◌, ◌⊎◌, ◌↔◌, true, false, Ok, Err, IfOk, IfErr, OnErr, nat_lt};
ghost use Rattle.model.specs.History.{now};
ghost use Rattle.sessions.specs.Calls.{Looks};
ghost use Rattle.sessions.specs.Compactions.{chronicle_of};
ghost use Rattle.sessions.specs.declared.fault.Fault.TheVariants as fault;

use crate::fault::Fault;
use crate::session::Session;
use std::thread;
use std::time::{Clock, Duration};
use updater_state::Opening;

/// After so many looks that follow one another, a wait no longer only yields but sleeps.
const YIELDS: u64 = 1_000;

/// Lets others run, after so many looks that follow one another: for a while it only yields, and then it sleeps for a
/// millisecond. The first look is due at once.
fn pause<K: Clock>(clock: &K, looks: u64) {
    if looks == 0 {
        return;
    }
    if looks <= YIELDS {
        return thread::yield_now();
    }
    thread::sleep(clock, Duration::from_millis(1));
}

impl<C: Drop, J: Opening, G: Drop> Session<C, J, G> {
    /// Looks at most `turns` times, and once where that is 0, until what was seen has an update number
    /// above `seq`, and says whether it has. It takes no lock and no memory. Between the first looks it
    /// yields, and between later ones it sleeps for a millisecond of the clock.
    ///
    /// A call of one turn goes on with the pauses of the calls before it: calls of one turn, one after another, last as
    /// long as one call of as many turns. The pauses begin anew with a call of more turns, and with
    /// [`refresh`](Session::refresh).
    pub fn wait_past<K: Clock>(&mut self, clock: &K, seq: u64, turns: u64) -> Result<bool, Fault>
        ensures past { IfOk result (λ past. past ≡ nat_lt seq (now (chronicle_of J.base self.new)).update_seq) }
        ensures looked { result ≡ Ok false → turns ≤ self.new.waited }
        ensures looks { IfOk result (λ _. Looks J.base self.old self.new) }
        ensures refused_looks { result ≡ Err fault.EntryRefused → Looks J.base self.old self.new }
        ensures lost { (result ≡ Err fault.Lost) ↔ (self.old.lost ≡ true) }
        ensures lost_same { self.old.lost ≡ true → self.new ≡ self.old }
        ensures refused { IfErr result (λ e. (e ≡ fault.Lost) ⊎ (e ≡ fault.EntryRefused)) }
    {
        let _recalled = self.place();
        self.begin_wait(turns);
        self.look_once_more(clock, 1)?;
        self.wait_more(clock, seq, turns)
    }

    /// A wait of so many turns begins: with a look and no pause where there are several.
    fn begin_wait(&mut self, turns: u64)
        ensures { self.new ≡ self.old }
    {
        if turns > 1 {
            self.begin_pauses();
        }
    }

    /// The next wait begins with a look and no pause.
    pub(crate) fn begin_pauses(&mut self)
        ensures { self.new ≡ self.old }
    {
        self.paced = 0;
    }

    /// Looks again until there are so many turns, the first of which was.
    fn wait_more<K: Clock>(&mut self, clock: &K, seq: u64, turns: u64) -> Result<bool, Fault>
        requires known { self.old.lost ≡ false }
        requires first { self.old.waited ≡ 1 }
        ensures past { IfOk result (λ past. past ≡ nat_lt seq (now (chronicle_of J.base self.new)).update_seq) }
        ensures looked { result ≡ Ok false → turns ≤ self.new.waited }
        ensures looks { Looks J.base self.old self.new }
        ensures refused { IfErr result (λ e. e ≡ fault.EntryRefused) }
    {
        let _recalled = self.place();
        for turn in 1..turns {
            if self.is_past(seq) {
                return Ok(true);
            }
            self.look_once_more(clock, turn + 1)?;
        }
        Ok(self.is_past(seq))
    }

    /// Sees what is published now, which is the wait's look of this number, after a pause unless it is the first of all
    /// that follow one another.
    fn look_once_more<K: Clock>(&mut self, clock: &K, number: u64) -> Result<(), Fault>
        ensures looks { IfOk result (λ _. Looks J.base self.old self.new) }
        ensures counted { IfOk result (λ _. self.new.waited ≡ number) }
        ensures kept { OnErr result (self.new ≡ self.old) }
        ensures lost { (result ≡ Err fault.Lost) ↔ (self.old.lost ≡ true) }
        ensures refused { IfErr result (λ e. (e ≡ fault.Lost) ⊎ (e ≡ fault.EntryRefused)) }
    {
        pause(clock, self.paced);
        self.see_latest()?;
        self.count_look(number);
        Ok(())
    }

    /// A wait has looked so often.
    fn count_look(&mut self, looks: u64)
        ensures { self.new ≡ record self.old { waited = looks } }
    {
        self.waited = looks;
        self.paced = self.paced.saturating_add(1);
    }

    /// Whether what was seen has an update number above `seq`.
    fn is_past(&self, seq: u64) -> bool
        ensures { result ≡ nat_lt seq (now (chronicle_of J.base self.now)).update_seq }
    {
        self.version().database().documents().update_seq() > seq
    }
}
