//! What each session saw last.
ghost use Rattle.std.specs.Prelude.{◌≡◌, ◌∷◌, [], true, replicate, IfOk};
ghost use Rattle.model.specs.World.{free_in};
ghost use Rattle.machine.specs.Views.{views_of, seeing, all_seeing, seen_by, freed_one, all_free};

use commands::Job;
use snapshots::Version;
use std::alloc::{AllocError, Global};
use std::mem::replace;

/// The version that a session saw last, and whether it has no open call.
#[derive(Drop)]
pub(crate) struct SessionView {
    pub(crate) version: Version,
    pub(crate) free: bool,
}

/// The version that a session is to see.
#[derive(Drop)]
pub(crate) struct Seen {
    pub(crate) session: u16,
    pub(crate) version: Version,
}

/// A free session that sees the version.
fn at(version: &Version) -> Result<SessionView, AllocError>
    ensures { IfOk result (λ v. v ≡ record { version = version.now; free = true }) }
{
    Ok(SessionView {
        version: version.share()?,
        free: true,
    })
}

/// So many free sessions that see the version.
pub(crate) fn first_views(
    alloc: Global,
    version: &Version,
    sessions: u16,
) -> Result<Vec<SessionView>, AllocError>
    ensures { IfOk result (λ views. views.items ≡ replicate sessions (record { version = version.now; free = true })) }
{
    let mut views = Vec::with_capacity(alloc, sessions as usize)?;
    for _made in 0..sessions {
        views.push(at(version)?)?;
    }
    Ok(views)
}

/// Whether the session is one that has no open call.
pub(crate) fn is_free(views: &[SessionView], session: u16) -> bool
    ensures { result ≡ free_in (views_of views.now) session }
{
    match views.get(session as usize) {
        Some(view) => view.free,
        None => false,
    }
}

/// The session's call is open, or is no more.
pub(crate) fn set_free(views: &mut Vec<SessionView>, session: u16, free: bool)
    ensures { views.new.items ≡ freed_one views.old.items session free }
{
    if let Some(view) = views.get_mut(session as usize) {
        view.free = free;
    }
}

/// The sessions of the jobs have no open call.
pub(crate) fn free_all(views: &mut Vec<SessionView>, jobs: &[Job])
    ensures { views.new.items ≡ all_free views.old.items jobs.now }
{
    for job in jobs {
        set_free(views, job.seat.session(), true);
    }
}

/// The session is free, and sees the version.
pub(crate) fn see(views: &mut Vec<SessionView>, seen: Seen)
    ensures { views.new.items ≡ seeing views.old.items seen }
{
    let Seen { session, version } = seen;
    let Some(view) = views.get_mut(session as usize) else {
        return;
    };
    let _older = replace(
        view,
        SessionView {
            version,
            free: true,
        },
    );
}

/// The sessions are free, and each sees its version.
pub(crate) fn see_all(views: &mut Vec<SessionView>, seen: Vec<Seen>)
    ensures { views.new.items ≡ all_seeing views.old.items seen.items }
{
    for one in seen {
        see(views, one);
    }
}

/// The version for the session.
pub(crate) fn seen_at(version: &Version, session: u16) -> Result<Seen, AllocError>
    ensures { IfOk result (λ s. s ≡ record { session = session; version = version.now }) }
{
    Ok(Seen {
        session,
        version: version.share()?,
    })
}

/// The version for one session.
pub(crate) fn seen_by_one(
    alloc: Global,
    version: &Version,
    session: u16,
) -> Result<Vec<Seen>, AllocError>
    ensures { IfOk result (λ seen. seen.items ≡ record { session = session; version = version.now } ∷ []) }
{
    let seen = seen_at(version, session)?;
    let one = Vec::from_array(alloc, [seen])?;
    Ok(one)
}

/// The version for the session of each job.
pub(crate) fn seen_by_all(
    alloc: Global,
    version: &Version,
    jobs: &[Job],
) -> Result<Vec<Seen>, AllocError>
    ensures { IfOk result (λ seen. seen.items ≡ seen_by version.now jobs.now) }
{
    let mut seen = Vec::with_capacity(alloc, jobs.len())?;
    for job in jobs {
        seen.push(seen_at(version, job.seat.session())?)?;
    }
    Ok(seen)
}
