//! The two databases of a case.
ghost use Rattle.history_lock.specs.Names.{IsNamed};

use crate::case::Case;
use crate::documents::{Documents, Ids};
use crate::run::tell_runs;
use commands::{Config, Limits};
use history_lock::{Opened, open};
use session_api::{Calls, Replica};
use session_calls::{SeesVersion, SharedSession};
use session_peer::SessionPeer;
use std::alloc::{AllocError, Global};
use std::io;
use std::marker::Brand;
use std::sync::Wait;
use std::time::Clock;
use updater_state::{Core, NoGate, Opening};

const LIMITS: Limits = Limits {
    sessions: 1,
    queue: 1,
    gather: 1,
    slice: 1,
    slack: 0,
    tries: 1,
    max_places: 100,
};

/// Goes through a case with two new databases, and prints it.
pub(crate) fn tell_case<R: Wait + Clock + Print + AllocGlobal + Drop>(
    rt: &R,
    case: Case,
) -> io::Result<()> {
    let source = new_database(rt.alloc())?;
    tell_from::<Brand, &R, R>(rt, rt, case, source)
}

pub(crate) fn new_database(alloc: Global) -> Result<Opened, AllocError> {
    Opened::new(alloc, config())
}

/// The configuration of all databases.
pub(crate) fn config() -> Config {
    let Some(config) = Config::new(LIMITS) else {
        unreachable!()
    };
    config
}

/// Goes through a case whose source is this database, which keeps a runtime of its own.
fn tell_from<J: Opening, T: Wait + Drop, R: Wait + Clock + Print + AllocGlobal + Drop>(
    rt: &R,
    source_rt: T,
    case: Case,
    source: Opened,
) -> io::Result<()>
    requires named { IsNamed J.book J.base J.table J.capacity J.sessions J.config source }
{
    let session = session_of::<J, T>(source_rt, source)?;
    let target = new_database(rt.alloc())?;
    tell_between::<Brand, &R, R, _>(rt, rt, case, session, target)
}

/// Goes through a case from the source of a session to this database, which keeps a runtime of its own.
fn tell_between<
    J: Opening,
    T: Wait + Drop,
    R: Wait + Clock + Print + AllocGlobal + Drop,
    S: Replica<R> + SeesVersion + Drop,
>(rt: &R, target_rt: T, case: Case, source: S, target: Opened) -> io::Result<()>
    requires named { IsNamed J.book J.base J.table J.capacity J.sessions J.config target }
{
    let session = session_of::<J, T>(target_rt, target)?;
    tell_sessions(rt, rt.alloc(), case, source, session)
}

/// Has the source take its documents, and goes through a case from one session to the other.
fn tell_sessions<
    X: Print + Drop,
    S: Replica<X> + SeesVersion + Drop,
    T: Replica<X> + SeesVersion + Drop,
>(rt: &X, alloc: Global, case: Case, mut source: S, target: T) -> io::Result<()> {
    let documents = case.script().documents;
    let ids = Ids::new(alloc, documents).ok_or(AllocError)?;
    write_documents(rt, alloc, documents, &mut source)?;
    let source = SessionPeer::new(source, rt);
    let target = SessionPeer::new(target, rt);
    tell_runs(rt, alloc, case, &ids, source, target)
}

/// Writes the documents. A session that is alone is refused nothing but memory.
fn write_documents<X, S: Calls<X>>(
    rt: &X,
    alloc: Global,
    documents: Documents,
    session: &mut S,
) -> Result<(), AllocError> {
    let command = documents.command(alloc).ok_or(AllocError)?;
    match session.write(rt, command) {
        Ok(_place) => Ok(()),
        Err(_fault) => Err(AllocError),
    }
}

/// The one session of a database.
pub(crate) fn session_of<J: Opening, T: Wait + Drop>(
    rt: T,
    opened: Opened,
) -> Result<SharedSession<Core<T, J>, J, NoGate>, AllocError>
    requires named { IsNamed J.book J.base J.table J.capacity J.sessions J.config opened }
{
    let Ok((_master, mut sessions)) = open::<T, J, NoGate>(rt, opened, NoGate) else {
        return Err(AllocError);
    };
    let session = sessions.pop().ok_or(AllocError)?;
    Ok(SharedSession::new(session))
}
