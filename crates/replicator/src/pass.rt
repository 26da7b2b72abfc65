//! What a worker knows of the changes after a number, and brings of them.
ghost use Rattle.std.specs.Prelude.{◌≡◌, ◌≤◌, ◌-◌, IfOk, length, take, drop, true};
ghost use Rattle.replicator.specs.declared.due.Due.TheVariants as due;
ghost use Rattle.replicator.specs.Due.{AsksNext, SendsNext};
ghost use Rattle.replicator.specs.Learned.{with_mark, with_opened, with_taken};
ghost use Rattle.replicator.specs.Passing.{IsDuePart};
ghost use Rattle.replicator.specs.Readable.{is_readable_opened};
ghost use Rattle.model.specs.Map.{entries};
ghost use Rattle.replicator.specs.Stage.{first_pass};
ghost use Rattle.replicator.specs.Wanted.{wanted_in};

use crate::due::Due;
use crate::ends::Ends;
use crate::peer::Opened;
use crate::sizes::bulk_len;
use crate::wanted::{add_opened, next_revs, wanted_of};
use commands::{AskedRevisions, Merge};
use document_id::DocId;
use queries::{ChangesPage, Differences};
use revision_id::RevId;
use std::alloc::{AllocError, Global};
use std::marker::Model;

/// A page of changes, what the target lacks of it, and what became of that.
///
/// Each revision that was asked for is in the path of a given document, or is absent.
#[derive(Drop)]
pub(crate) struct Pass {
    ends: Ends,
    page: ChangesPage,
    differences: Differences,
    /// What the target lacks.
    wanted: Vec<(DocId, RevId)>,
    /// How many of those were asked for.
    asked: usize,
    /// The documents that the source gave.
    given: Vec<Merge>,
    /// The revisions that the source calls missing.
    absent: Vec<(DocId, RevId)>,
    /// How many of the given documents the target took.
    taken: usize,
    /// Whether the target's checkpoint is written.
    marked: bool,
}

impl Model for Pass {
    ghost use Rattle.std.specs.Coded.{codes};
    ghost use Rattle.model.specs.JsonCode.{coded_members};
    ghost use Rattle.replicator.specs.Stage.{Pass};
    ghost use Rattle.replicator.specs.Passing.{IsPassing, pass_of};

    ghost Value = { Pass };

    ghost coded = { Prim.hlevel (codes, coded_members) };

    ghost view = { λ p. pass_of p.ends p.page p.differences p.asked p.given.items p.absent.items p.taken p.marked };

    ghost invariant = { λ p. IsPassing p.differences p.wanted.items p.asked p.given.items p.absent.items p.taken };
}

impl Pass {
    /// A page, and what the target lacks of it.
    pub(crate) fn new(
        alloc: Global,
        ends: Ends,
        page: ChangesPage,
        differences: Differences,
    ) -> Result<Pass, AllocError>
        ensures first { IfOk result (λ pass. pass ≡ first_pass ends page differences) }
    {
        let wanted = wanted_of(alloc, &differences)?;
        Ok(Pass {
            ends,
            page,
            differences,
            wanted,
            asked: 0,
            given: Vec::new(alloc),
            absent: Vec::new(alloc),
            taken: 0,
            marked: false,
        })
    }

    /// What is to be done next.
    pub(crate) fn due(&self) -> Due
        ensures { IsDuePart result self.now }
    {
        if self.asked < self.wanted.len() {
            return Due::Open;
        }
        if self.taken < self.given.len() {
            return Due::Send;
        }
        if self.marked {
            return Due::MarkSource;
        }
        Due::MarkTarget
    }

    /// The revisions that the target lacks and that weren't asked for yet.
    pub(crate) fn rest(&self) -> &[(DocId, RevId)]
        requires { IsDuePart due.Open self.now }
        ensures { result.now ≡ drop self.now.asked (wanted_in (entries self.now.differences)) }
    {
        &self.wanted[self.asked..]
    }

    /// The next revisions that the target lacks, of one document.
    pub(crate) fn next_asked(&self, alloc: Global) -> Result<AskedRevisions, AllocError>
        requires { IsDuePart due.Open self.now }
        ensures next { IfOk result (λ asked. AsksNext self.now asked.0 asked.1) }
    {
        let rest = &self.wanted[self.asked..];
        let id = rest[0].0.share()?;
        let revisions = next_revs(alloc, &id, rest)?;
        Ok(AskedRevisions { id, revisions })
    }

    /// With what the source said of these revisions.
    pub(crate) fn with_opened(
        self,
        asked: &AskedRevisions,
        opened: Opened,
    ) -> Result<Pass, AllocError>
        requires next { AsksNext self asked.now.0 asked.now.1 }
        requires readable { is_readable_opened asked.now.0 asked.now.1 opened ≡ true }
        ensures with { IfOk result (λ pass. pass ≡ with_opened self asked.now.0 asked.now.1 opened) }
    {
        let Pass {
            ends,
            page,
            differences,
            wanted,
            asked: before,
            mut given,
            mut absent,
            taken,
            marked,
        } = self;
        add_opened(&mut given, &mut absent, &asked.id, opened)?;
        Ok(Pass {
            ends,
            page,
            differences,
            wanted,
            asked: before + asked.revisions.len(),
            given,
            absent,
            taken,
            marked,
        })
    }

    /// The documents that go to the target next.
    pub(crate) fn next_sent(&self, alloc: Global) -> Result<&[Merge], AllocError>
        requires { IsDuePart due.Send self.now }
        ensures next { IfOk result (λ documents. SendsNext self.now documents.now) }
    {
        let rest = &self.given[self.taken..];
        let len = bulk_len(alloc, rest)?;
        Ok(&rest[..len])
    }

    /// With so many more documents that the target took.
    pub(crate) fn with_taken(self, len: usize) -> Pass
        requires { len ≤ length self.given - length self.taken }
        ensures { result ≡ with_taken self (take len (drop (length self.taken) self.given)) }
    {
        let Pass {
            ends,
            page,
            differences,
            wanted,
            asked,
            given,
            absent,
            taken,
            marked,
        } = self;
        Pass {
            ends,
            page,
            differences,
            wanted,
            asked,
            given,
            absent,
            taken: taken + len,
            marked,
        }
    }

    /// Where the page ends.
    pub(crate) fn last_seq(&self) -> u64
        ensures { result ≡ self.now.page.last_seq }
    {
        self.page.last_seq
    }

    pub(crate) fn ends(&self) -> Ends
        ensures { result ≡ self.now.ends }
    {
        self.ends
    }

    /// With the target's checkpoint, under this revision number.
    pub(crate) fn with_mark(self, counter: u32) -> Pass
        ensures { result ≡ with_mark self counter }
    {
        let mut pass = self;
        pass.ends.target = Some(counter);
        pass.marked = true;
        pass
    }
}
