//! The sessions of a database, as `session_api` has them and as they were.
ghost use Rattle.std.specs.Prelude.{◌≡◌, ◌≤◌, [], length, vec_capacity, IfOk};

use crate::session::SharedSession;
use sessions::Session;
use std::alloc::{AllocError, Global};
use updater_state::Opening;

/// The sessions, as `session_api` has them.
pub fn all_shared<C: Drop, J: Opening, G: Drop>(
    alloc: Global,
    sessions: Vec<Session<C, J, G>>,
) -> Result<Vec<SharedSession<C, J, G>>, AllocError>
    ensures same { IfOk result (λ shared. shared.items ≡ sessions.items) }
{
    let mut shared = Vec::with_capacity(alloc, sessions.len())?;
    for session in sessions {
        shared.push(SharedSession::new(session))?;
    }
    Ok(shared)
}

/// The sessions as they were, in a vector with room for them.
pub fn all_sessions<C: Drop, J: Opening, G: Drop>(
    shared: Vec<SharedSession<C, J, G>>,
    room: Vec<Session<C, J, G>>,
) -> Vec<Session<C, J, G>>
    requires empty { room.items ≡ [] }
    requires room { length shared.items ≤ vec_capacity room }
    ensures same { result.items ≡ shared.items }
{
    let mut sessions = room;
    for session in shared {
        sessions.push_reserved(session.into_session());
    }
    sessions
}
