//! What is said of a replication.
ghost use Rattle.std.specs.Prelude.{◌≡◌, ◌↔◌, Err, IsTrue};
ghost use Rattle.replicator.specs.declared.fault.PeerFault.TheVariants.{Failed};
ghost use Rattle.replicator_run.specs.Report.{both, ending, exit_status};

use replicator::{PeerFault, Progress};

/// What a replication did, and how it ended. Contracts see its fields.
#[derive(Clone, Copy, Debug, PartialEq, Eq)]
pub struct Report {
    /// How many documents the source gave, or 2^64 - 1 where more.
    pub documents_read: u64,
    /// How many of them the target took, or 2^64 - 1 where more.
    pub documents_written: u64,
    /// What its last step reported.
    pub ended: Result<Progress, PeerFault>,
    /// How many calls of the source failed.
    pub source_failures: u64,
    /// How many calls of the target failed.
    pub target_failures: u64,
}

impl Report {
    /// The exit status of a program: 0 where all changes came to the target, 3 where an answer can't
    /// be read or a write was refused, else 1.
    pub fn exit_status(&self) -> u8
        ensures { result ≡ exit_status self.now.ended }
    {
        match self.ended {
            Ok(Progress::Done) => 0,
            Ok(Progress::Going | Progress::Checkpoint(_)) => 1,
            Err(PeerFault::Failed | PeerFault::Memory) => 1,
            Err(PeerFault::Unreadable | PeerFault::Refused) => 3,
        }
    }

    /// Whether it ended since an end failed.
    pub fn has_failed(&self) -> bool
        ensures { IsTrue result ↔ (self.now.ended ≡ Err Failed) }
    {
        matches!(self.ended, Err(PeerFault::Failed))
    }

    /// What two replications did, of which the other came behind this one: how it ended is how the second did.
    pub fn then(&self, next: &Report) -> Report
        ensures { result ≡ both self.now next.now }
    {
        Report {
            documents_read: self.documents_read.saturating_add(next.documents_read),
            documents_written: self
                .documents_written
                .saturating_add(next.documents_written),
            ended: next.ended,
            source_failures: next.source_failures,
            target_failures: next.target_failures,
        }
    }

    /// How it ended, in words. Where an end failed, the source did if calls of it failed, and else the target.
    pub fn ending(&self) -> &'static str
        ensures { result.now ≡ ending self.now.source_failures self.now.ended }
    {
        match self.ended {
            Ok(Progress::Done) => "done",
            Ok(Progress::Going | Progress::Checkpoint(_)) => "not done",
            Err(PeerFault::Failed) if self.source_failures > 0 => "the source failed",
            Err(PeerFault::Failed) => "the target failed",
            Err(PeerFault::Memory) => "out of memory",
            Err(PeerFault::Unreadable) => "an answer can't be read",
            Err(PeerFault::Refused) => "a write was refused",
        }
    }
}
