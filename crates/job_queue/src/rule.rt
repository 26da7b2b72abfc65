//! The rule of the queue, and its steps, each with what its pass knows before and after.
ghost use Rattle.std.specs.Prelude.{◌≡◌, ℕ, ◌+◌, ◌<◌, ◌≤◌, [], ◌∷◌, ◌++◌, length, IfOk, MatchOption, MatchResult};
ghost use Rattle.crossbeam_queue.specs.Passes.{view, IsPassOf, ruled_capacity};
ghost use Rattle.job_queue.specs.Turns.{updater, pusher, note, nobody, count};

use commands::Job;
use crossbeam_queue::protocol::{Join, Lesson, Outcome, Protocol, Split};
use crossbeam_queue::{Pass, RuledArrayQueue};
use std::alloc::{AllocError, Global};
use std::collections::LinkedList;
use std::sync::Wait;

/// What a pass may do, and what its owner knows. It exists in the proofs alone: no value of it is made.
pub struct Hand {
    /// The updater's: it takes jobs, has taken these, and made passes for so many sessions.
    pub takes: bool,
    pub taken: LinkedList<Job>,
    pub made: u64,
    /// A session's: its number, how many jobs it pushed, and how many of them it knows to be taken.
    pub pushes: bool,
    pub number: u64,
    pub pushed: u64,
    pub gone: u64,
    /// TakenCount of what was taken.
    pub notes: bool,
    /// For how many sessions the updater will make passes.
    pub bound: u64,
}

/// At most one job of each session waits. Of each session as many were taken or wait as it pushed.
pub struct InTurn;

impl Protocol<Job, Hand> for InTurn {
    ghost use Rattle.std.specs.Prelude.{[]};
    ghost use Rattle.job_queue.specs.Turns.{Turns, updater};

    ghost holds = { Turns };

    ghost first = { updater [] 0 0 };
}

/// A job was pushed. Where it was refused, fewer jobs wait than there will be sessions.
pub struct Pushed;

impl Outcome<Job, Hand> for Pushed {
    ghost use Rattle.std.specs.Prelude.{◌≡◌, ◌+◌};

    ghost then = { λ v x w. w ≡ record v { pushed = v.pushed + 1 } };
}

impl Lesson<Job, Hand> for Pushed {
    ghost use Rattle.std.specs.Prelude.{◌<◌, length};

    ghost fact = { λ v items. length items < v.bound };
}

/// A job was taken, of a session that has a pass.
pub struct Popped;

impl Outcome<Job, Hand> for Popped {
    ghost use Rattle.std.specs.Prelude.{◌≡◌, ◌<◌, [], ◌∷◌, ◌++◌};

    ghost then = { λ v x w. (w ≡ record v { taken = v.taken ++ x ∷ [] }) × (x.seat.session < v.made) };
}

impl Lesson<Job, Hand> for Popped {
    ghost fact = { λ v items. Unit {0} };
}

/// One session more will have a pass.
pub struct Widens;

impl Split<Hand> for Widens {
    ghost use Rattle.std.specs.Prelude.{◌+◌, []};
    ghost use Rattle.job_queue.specs.Turns.{updater, nobody};

    ghost left = { λ v. updater [] 0 (v.bound + 1) };

    ghost right = { λ v. nobody };
}

/// The next session's pass.
pub struct Seats;

impl Split<Hand> for Seats {
    ghost use Rattle.std.specs.Prelude.{◌+◌};
    ghost use Rattle.job_queue.specs.Turns.{updater, pusher};

    ghost left = { λ v. updater v.taken (v.made + 1) v.bound };

    ghost right = { λ v. pusher v.made 0 0 v.bound };
}

/// TakenCount of what was taken, for a session.
pub struct Notes;

impl Split<Hand> for Notes {
    ghost use Rattle.job_queue.specs.Turns.{note};

    ghost left = { λ v. v };

    ghost right = { λ v. note v.taken };
}

impl Join<Hand> for Notes {
    ghost use Rattle.job_queue.specs.Turns.{count, nobody};

    ghost both = { λ v w. record v { gone = count v.number w.taken } };

    ghost spent = { nobody };
}

/// The queue with its rule.
pub type Jobs = RuledArrayQueue<Job, Hand, InTurn>;

/// An empty queue, and the updater's pass.
pub fn open(alloc: Global, cap: usize) -> Result<(Jobs, Pass<Job, Hand>), AllocError>
    requires { 0 < cap }
    ensures { IfOk result (λ q. (ruled_capacity q.0 ≡ cap) × IsPassOf q.0 q.1 × (view q.1 ≡ updater [] 0 0)) }
{
    Jobs::ruled(alloc, cap)
}

/// One session more.
pub fn widen(jobs: &Jobs, first: &mut Pass<Job, Hand>, bound: u64)
    requires queue { IsPassOf jobs.now first.old }
    requires first { view first.old ≡ updater [] 0 bound }
    ensures queue { IsPassOf jobs.now first.new }
    ensures views { view first.new ≡ updater [] 0 (bound + 1) }
{
    let _nobody = jobs.another::<Widens>(first);
}

/// A session's pass.
pub fn seat(jobs: &Jobs, first: &mut Pass<Job, Hand>, made: u64) -> Pass<Job, Hand>
    requires queue { IsPassOf jobs.now first.old }
    requires first { (view first.old ≡ updater [] made (view first.old).bound) × (made < (view first.old).bound) }
    ensures queue { IsPassOf jobs.now first.new × IsPassOf jobs.now result }
    ensures views { (view first.new ≡ updater [] (made + 1) (view first.old).bound) × (view result ≡ pusher made 0 0 (view first.old).bound) }
{
    jobs.another::<Seats>(first)
}

/// The queue refuses only where there are more sessions than it holds.
pub fn push<R: Wait>(
    rt: &R,
    jobs: &Jobs,
    pass: &mut Pass<Job, Hand>,
    pushed: u64,
    job: Job,
) -> Result<(), Job>
    requires queue { IsPassOf jobs.now pass.old }
    requires turn { view pass.old ≡ pusher job.seat.session pushed pushed (view pass.old).bound }
    ensures queue { IsPassOf jobs.now pass.new }
    ensures pushed { MatchResult result (λ _. view pass.new ≡ pusher job.seat.session (pushed + 1) pushed (view pass.old).bound) (λ x. (x ≡ job) × (view pass.new ≡ view pass.old) × (ruled_capacity jobs.now < (view pass.old).bound)) }
{
    jobs.push_as::<Pushed, R>(rt, pass, job)
}

/// The job that waits longest.
pub fn pop<R: Wait>(rt: &R, jobs: &Jobs, pass: &mut Pass<Job, Hand>) -> Option<Job>
    requires queue { IsPassOf jobs.now pass.old }
    requires takes { view pass.old ≡ updater (view pass.old).taken (view pass.old).made (view pass.old).bound }
    ensures queue { IsPassOf jobs.now pass.new }
    ensures taken { MatchOption result (view pass.new ≡ view pass.old) (λ job. (view pass.new ≡ updater ((view pass.old).taken ++ job ∷ []) (view pass.old).made (view pass.old).bound) × (job.seat.session < (view pass.old).made)) }
{
    jobs.pop_as::<Popped, R>(rt, pass)
}

/// TakenCount of what was taken.
pub fn word(jobs: &Jobs, from: &mut Pass<Job, Hand>) -> Pass<Job, Hand>
    requires queue { IsPassOf jobs.now from.old }
    requires takes { view from.old ≡ updater (view from.old).taken (view from.old).made (view from.old).bound }
    ensures queue { IsPassOf jobs.now from.new × IsPassOf jobs.now result }
    ensures views { (view from.new ≡ view from.old) × (view result ≡ note (view from.old).taken) }
{
    jobs.another::<Notes>(from)
}

/// A session hears what was taken. It then knows how many of its jobs are gone.
pub fn hear(
    jobs: &Jobs,
    pass: &mut Pass<Job, Hand>,
    pushed: u64,
    number: u64,
    word: Pass<Job, Hand>,
)
    requires queue { IsPassOf jobs.now pass.old × IsPassOf jobs.now word }
    requires views { (view word ≡ note (view word).taken) × (view pass.old ≡ pusher number pushed (view pass.old).gone (view pass.old).bound) }
    ensures queue { IsPassOf jobs.now pass.new }
    ensures view { view pass.new ≡ pusher number pushed (count number (view word).taken) (view pass.old).bound }
{
    jobs.absorb::<Notes>(pass, word);
}
