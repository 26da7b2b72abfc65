//! What a replication reports while it runs.

use crate::pair::Pair;
use document_id::DocId;
use replicator_run::{Asked, End, Watch};

/// Reports what keeps a replication from going on by lines on standard error, and how far it has come.
#[derive(Clone, Copy, Drop)]
pub(crate) struct Lines<'p, 'r> {
    pub(crate) pair: &'p Pair<'r>,
}

impl Watch for Lines<'_, '_> {
    fn asks(&self, end: End, asked: Asked) {
        self.pair.last.set(Some((end, asked)));
        self.pair.patience(end).begin(self.pair.rt);
    }

    fn changes(&self, last_seq: u64, pending: u64) {
        self.pair.last_seq.set(last_seq);
        self.pair.progress.left(pending);
    }

    fn passed(&self, end: End, documents: u64) {
        match end {
            End::Source => self.pair.progress.read(documents),
            End::Target => self.pair.progress.written(documents),
        }
    }

    fn large_document(&self, id: &DocId, len: usize) {
        let id = id.as_str();
        self.pair.progress.clear();
        let _printed = eprintln!(self.pair.rt;
            "couchd: no bulk can hold the document {id:?}, which has {len} bytes"
        );
    }

    fn many_leaves(&self, id: &DocId, leaves: usize, all: usize) {
        let id = id.as_str();
        self.pair.progress.clear();
        let _printed = eprintln!(self.pair.rt;
            "couchd: one request may not hold {all} leaves, of which the document {id:?} has {leaves}"
        );
    }

    fn skipped_document(&self, id: &DocId, len: usize) {
        let id = id.as_str();
        self.pair.progress.clear();
        let _printed = eprintln!(self.pair.rt;
            "couchd: the document {id:?} is skipped: no bulk can hold its {len} bytes"
        );
    }

    fn skipped_leaves(&self, id: &DocId, leaves: usize) {
        let id = id.as_str();
        self.pair.progress.clear();
        let _printed = eprintln!(self.pair.rt;
            "couchd: the document {id:?} is skipped: no request can hold its {leaves} leaves"
        );
    }

    fn past_end(&self, since: u64, last_seq: u64) {
        self.pair.progress.clear();
        let _printed = eprintln!(self.pair.rt;
            "couchd: the checkpoint at {since} is past the source's end, which is at {last_seq}"
        );
    }
}
