//! Batches of jobs: which job may join one, and the version after all of them at once.
#![tactic(auto)]

ghost use Rattle.std.specs.Prelude.{◌≡◌, ◌+◌, ◌≤◌, ◌∷◌, ◌++◌, [], length, IfOk, IsTrue};
ghost use Rattle.model.specs.History.{now, extended, batch_entries};
ghost use Rattle.updater.specs.Batches.{MayFollow, has_job_of, joins};

use commands::Job;
use snapshots::Version;
use std::alloc::AllocError;

/// The version after these jobs, in their order, or nothing of them. Each is its session's next call
/// after those before it.
pub fn apply_batch(version: &Version, jobs: &[Job]) -> Result<Version, AllocError>
    requires next { MayFollow (now version.now) jobs.now }
    requires room { length version.now.entries + length jobs.now ≤ 4294967295 }
    ensures all { IfOk result (λ v. v ≡ extended version.now (batch_entries (now version.now) jobs.now)) }
{
    let mut next = version.share()?;
    for job in jobs {
        next.apply(job.seat, &job.command)?;
    }
    Ok(next)
}

/// Whether one of the jobs is of this session.
pub fn has_session(jobs: &[Job], session: u16) -> bool
    ensures { result ≡ has_job_of session jobs.now }
{
    jobs.iter().any(|job| job.seat.session() == session)
}

/// Whether a job may go last in the batch: it is its session's next call over this version, and no
/// job of the batch is of its session. Another job is dropped.
pub fn may_join(version: &Version, batch: &[Job], job: &Job) -> bool
    requires { MayFollow (now version.now) batch.now }
    ensures joins { result ≡ joins (now version.now) batch.now job.now }
    ensures follows { IsTrue result → MayFollow (now version.now) (batch.now ++ job.now ∷ []) }
{
    let session = job.seat.session();
    let is_next = job.seat.call() == version.next_call(session);
    is_next && !has_session(batch, session)
}
