//! Points of a call at which a test may hold a thread.

/// A point of a call.
#[derive(Clone, Copy, Debug, PartialEq, Eq, Drop)]
pub enum Point {
    /// The job waits in the queue, and the lock is not yet asked for.
    Pushed,
    /// A batch was popped, and is neither published nor given up yet. The lock is held.
    Popped,
    /// A slice of a compaction's copy is made.
    Sliced,
    /// A compaction's copy has caught up, and the lock is not yet asked for.
    CaughtUp,
    /// A compaction's copy is about to be swapped in. The lock is held.
    Finishing,
}

/// What is called at each point, with the number of the session whose call it is.
pub trait Gate {
    /// The call of this session is at the point, and goes on when this returns.
    fn at(&self, point: Point, session: u16);
}

/// Holds nobody.
#[derive(Drop)]
pub struct NoGate;

impl Gate for NoGate {
    fn at(&self, _point: Point, _session: u16) {}
}
