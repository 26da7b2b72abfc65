//! What a run with a held session is to do.

use crate::tests::answer;
use commands::Limits;
use sessions::Receipt;
use updater_state::Point;

/// Where session 0 is held, and until when.
#[derive(Debug, Clone, Copy)]
pub(crate) struct Plan {
    pub(crate) limits: Limits,
    pub(crate) held: Point,
    /// How many others have passed their push.
    pub(crate) pushed: u64,
    /// How many others were answered that the queue is full, or looked.
    pub(crate) told: u64,
    /// Whether each of the others pushes after the one before it has pushed.
    pub(crate) in_order: bool,
    /// Where that is not 0, session 0 compacts once so many were answered that the history is full.
    pub(crate) full: u64,
}

/// How many others push before this one, in order.
pub(crate) fn pushed_before(index: usize) -> u64 {
    u64::try_from(index.saturating_sub(1)).unwrap_or(0)
}

/// The place of a session's write, in order.
fn place_in_order(index: usize) -> Option<u64> {
    u64::try_from(index).ok()?.checked_add(1)
}

/// Whether the document was new, and, in order, the place is next to that of the session before.
pub(crate) fn is_right(plan: &Plan, index: usize, receipt: &Receipt) -> bool {
    let Some(Ok(_revision)) = answer(receipt.reply.kind()) else {
        return false;
    };
    !plan.in_order || place_in_order(index) == Some(receipt.place)
}
