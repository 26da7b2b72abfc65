//! A session as its thread has it.

use crate::follow::follow;
use crate::marks::Marks;
use crate::write::write_often;
use session_calls::SharedSession;
use std::io;
use std::sync::Wait;
use std::time::Clock;
use updater_state::{Core, Gate, Opening};

/// What threads do with sessions, in a context `R`. It doesn't name what a session opens, as what is lent to threads must
/// not.
pub(crate) trait Worker<R> {
    /// Follows what others write.
    fn follow_others(&mut self, rt: &R, marks: &Marks) -> io::Result<String>;

    /// Writes to each document in turn.
    fn write_documents(&mut self, rt: &R, marks: &Marks);
}

impl<R: AllocGlobal + Wait + Clock, T: Wait + Drop, J: Opening, G: Gate + Drop> Worker<R>
    for SharedSession<Core<T, J>, J, G> {
    fn follow_others(&mut self, rt: &R, marks: &Marks) -> io::Result<String> {
        follow(rt, rt.alloc(), marks, self)
    }

    fn write_documents(&mut self, rt: &R, marks: &Marks) {
        write_often(rt, rt.alloc(), marks, self);
    }
}
