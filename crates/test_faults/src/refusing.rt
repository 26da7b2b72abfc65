//! A session whose calls are refused.
ghost use Rattle.std.specs.Prelude.{◌≡◌, true, false, ⊤};
ghost use Rattle.model.specs.Command as model;
ghost use Rattle.model.specs.World.{is_compact};
ghost use Rattle.session_api.specs.Learns.{RefusesWrite, says_lost};
ghost use Rattle.session_api.specs.Known.{Known};
ghost use Rattle.test_faults.specs.Refused.{refused, IsCrowded};

use changes_feed::{answer, count_wanted};
use commands::{Command, Edit, Entry, Seat};
use document_id::{DocId, DocIds};
use json_profile::Body;
use queries::{Answer, Query, Row};
use session_api::{CallFault, Calls, Following, Unavailable, Viewer};
use session_calls::{Opened, next_rows};
use snapshots::Version;
use std::alloc::{AllocError, Global};
use std::sync::Arc;
use std::test::Fail;

/// A session that has seen one document, and whose calls are refused for a reason wherever it may be theirs.
#[derive(Drop)]
pub(crate) struct Refusing {
    version: Version,
    lost: bool,
    why: Unavailable,
}

impl Refusing {
    pub(crate) fn new(alloc: Global, why: Unavailable) -> Result<Refusing, Fail> {
        Ok(Refusing {
            version: written(alloc)?,
            lost: why == Unavailable::Lost,
            why,
        })
    }
}

/// The version with the document `a`.
fn written(alloc: Global) -> Result<Version, Fail> {
    let empty = Version::empty(alloc);
    let Some(seat) = Seat::new(0, empty.next_call(0)) else {
        return Err("a seat".into());
    };
    let command = first_edit(alloc)?;
    if empty.place() > 0 {
        return Err("no entry".into());
    }
    let version = empty.act(seat, &command)?;
    Ok(version)
}

fn first_edit(alloc: Global) -> Result<Command, Fail> {
    let edit = Edit {
        id: DocId::new(alloc, "a")?,
        named: None,
        deleted: false,
        body: Arc::new(alloc, Body::empty(alloc))?,
    };
    Ok(Command::edit(edit))
}

impl Viewer for Refusing {
    type Opened = Opened;

    ghost known = { λ s. refused s.version s.lost };

    ghost goes = { λ _ _ _. ⊤ };

    fn place(&self) -> u64 {
        self.version.place()
    }

    fn entry(&self, place: u64) -> Option<&Entry> {
        self.version.entry(place)
    }

    fn answer(&self, alloc: Global, query: &Query) -> Result<Answer, AllocError> {
        answer(alloc, &self.version, query)
    }

    fn open_revs(&self, alloc: Global, query: &Query) -> Result<Option<Opened>, AllocError> {
        Opened::of(alloc, &self.version, query)
    }

    fn update_seq(&self) -> u64 {
        self.version.database().documents().update_seq()
    }

    fn count_changes(&self, since: u64, ids: &Option<DocIds>) -> u64 {
        count_wanted(&self.version, since, ids)
    }

    fn next_rows(
        &self,
        alloc: Global,
        following: &mut Following,
        limit: u64,
    ) -> Result<Vec<Row>, AllocError> {
        next_rows(alloc, &self.version, following, limit)
    }

    fn refresh(&mut self) -> Result<(), CallFault> {
        let _recalled = self.place();
        if self.lost {
            return Err(CallFault::Unavailable(Unavailable::Lost));
        }
        if self.why == Unavailable::Entry {
            return Err(CallFault::Unavailable(Unavailable::Entry));
        }
        Ok(())
    }
}

impl<X> Calls<X> for Refusing {
    fn write(&mut self, _context: &X, command: Command) -> Result<u64, CallFault> {
        let _recalled = self.place();
        if self.lost {
            return Err(CallFault::Unavailable(Unavailable::Lost));
        }
        Err(fault_of(self.why, command.is_compaction()))
    }

    fn wait_past(&mut self, _context: &X, seq: u64, _turns: u64) -> Result<bool, CallFault> {
        let _recalled = self.place();
        if self.lost {
            return Err(CallFault::Unavailable(Unavailable::Lost));
        }
        if self.why == Unavailable::Entry {
            return Err(CallFault::Unavailable(Unavailable::Entry));
        }
        Ok(self.version.database().documents().update_seq() > seq)
    }
}

/// Why an edit or a compaction of a session that is not lost is refused: for the reason, if it can be, or since memory is refused.
fn fault_of(why: Unavailable, compacts: bool) -> CallFault
    ensures lost { says_lost result ≡ false }
    ensures refuses { (k : Known) → (command : model.Command) → IsCrowded k → is_compact command ≡ compacts
        → RefusesWrite k command k result }
{
    if compacts {
        return fault_of_compaction(why);
    }
    fault_of_edit(why)
}

fn fault_of_edit(why: Unavailable) -> CallFault
    ensures lost { says_lost result ≡ false }
    ensures refuses { (k : Known) → (command : model.Command) → IsCrowded k → is_compact command ≡ false
        → RefusesWrite k command k result }
{
    match why {
        Unavailable::Busy => CallFault::Unavailable(Unavailable::Busy),
        Unavailable::Full => CallFault::Unavailable(Unavailable::Full),
        Unavailable::Journal => CallFault::Unavailable(Unavailable::Journal),
        Unavailable::Lost | Unavailable::Behind | Unavailable::Overrun | Unavailable::Entry => {
            CallFault::Memory
        }
    }
}

fn fault_of_compaction(why: Unavailable) -> CallFault
    ensures lost { says_lost result ≡ false }
    ensures refuses { (k : Known) → (command : model.Command) → IsCrowded k → is_compact command ≡ true
        → RefusesWrite k command k result }
{
    match why {
        Unavailable::Busy | Unavailable::Lost => CallFault::Memory,
        Unavailable::Full => CallFault::Unavailable(Unavailable::Full),
        Unavailable::Behind => CallFault::Unavailable(Unavailable::Behind),
        Unavailable::Overrun => CallFault::Unavailable(Unavailable::Overrun),
        Unavailable::Entry => CallFault::Unavailable(Unavailable::Entry),
        Unavailable::Journal => CallFault::Unavailable(Unavailable::Journal),
    }
}
