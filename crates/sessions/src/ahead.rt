//! What a session does for the updater's work while another session does that work.

use commands::Command;
use snapshots::Version;
use std::alloc::Global;

/// So many words of memory are about what two batches of eight small jobs keep.
const WORDS: usize = 2_048;

/// Does what can be done ahead of the updater's work on a command, whichever thread is to do it: it changes nothing
/// that anyone sees, and takes the time of a thread that would wait. A version that was seen lately leads to the documents
/// as the next one will.
pub(crate) fn prepare(alloc: Global, seen: &Version, command: &Command) {
    grow_heap(alloc);
    seen.database().read_ahead(command);
}

/// Has the heap of this thread grow where it is short of room: words are written, and given back. Else it would grow
/// page by page while this thread does the updater's work and the others wait. Nothing is lost where it is refused.
fn grow_heap(alloc: Global) {
    let _given_back = vec![in alloc; 0u64; WORDS];
}
