//! What all threads of a run note.

use crate::count::Count;
use crate::hold::Marks;
use crate::told::{Line, Replied, Told};
use revision_id::RevId;
use sessions::Fault;
use std::alloc::Global;
use std::sync::{Mutex, Wait};

/// What there is of a document in the history of a length.
#[derive(Clone, Copy, PartialEq, Eq)]
pub(crate) struct Sample {
    pub(crate) place: u64,
    pub(crate) document: usize,
    pub(crate) update_seq: u64,
    pub(crate) purge_seq: u64,
    pub(crate) winner: Option<RevId>,
    /// How many of its revisions have a body.
    pub(crate) bodies: usize,
}

/// What all threads of a run note.
#[derive(Drop)]
pub(crate) struct Notes {
    pub(crate) marks: Marks,
    pub(crate) lines: Mutex<Vec<Line>>,
    pub(crate) samples: Mutex<Vec<Sample>>,
    receipts: Count,
    written: Count,
    purged: Count,
    compacted: Count,
    /// Notes that memory was refused for, and calls that a soak does not expect.
    failed: Count,
}

/// How many calls of each kind had a receipt, and how many failed.
#[derive(Clone, Copy)]
pub(crate) struct Counts {
    pub(crate) receipts: u64,
    pub(crate) written: u64,
    pub(crate) purged: u64,
    pub(crate) compacted: u64,
    pub(crate) failed: u64,
}

impl Notes {
    pub(crate) fn new(alloc: Global) -> Notes {
        Notes {
            marks: Marks::new(),
            lines: Mutex::new(Vec::new(alloc)),
            samples: Mutex::new(Vec::new(alloc)),
            receipts: Count::new(),
            written: Count::new(),
            purged: Count::new(),
            compacted: Count::new(),
            failed: Count::new(),
        }
    }

    /// Notes what an act of a session was answered.
    pub(crate) fn add_line(&self, rt: &impl Wait, session: usize, told: Told) {
        if self.lines.lock(rt).push(Line { session, told }).is_err() {
            self.failed.add();
        }
    }

    pub(crate) fn add_sample(&self, rt: &impl Wait, sample: Sample) {
        if self.samples.lock(rt).push(sample).is_err() {
            self.failed.add();
        }
    }

    /// Counts an act of a soak. A compaction may be behind or overrun.
    pub(crate) fn count(&self, told: Told) {
        match told {
            Told::Receipt { reply, .. } => {
                self.receipts.add();
                self.count_reply(reply);
            }
            Told::Fault(Fault::Behind | Fault::Overrun) => {}
            _ => self.failed.add(),
        }
    }

    fn count_reply(&self, reply: Replied) {
        match reply {
            Replied::Wrote | Replied::Refused => self.written.add(),
            Replied::Purged(_number) => self.purged.add(),
            Replied::Done => self.compacted.add(),
        }
    }

    pub(crate) fn counts(&self) -> Counts {
        Counts {
            receipts: self.receipts.get(),
            written: self.written.get(),
            purged: self.purged.get(),
            compacted: self.compacted.get(),
            failed: self.failed.get(),
        }
    }
}
