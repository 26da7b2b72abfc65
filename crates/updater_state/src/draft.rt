//! Entries of a version that is not yet published.
ghost use Rattle.std.specs.Arc.{arc_value};
ghost use Rattle.std.specs.Prelude.{◌≡◌, ◌≤◌, [], All, length, drop, IfOk, OnOk, option_map};
ghost use Rattle.snapshots.specs.Version.{entry_at};
ghost use Rattle.updater_state.specs.Outcomes.{StoodAt, told};
ghost use Rattle.updater_state.specs.Drafts.{draft_of, drafts_from, stands_of, all_drafts_stand, IsPublished};

use crate::answer::Answer;
use crate::naming::Opening;
use crate::outcome::{Outcome, OutcomeKind};
use crate::outcomes::{Outcomes, tell};
use commands::{Copied, Reply};
use snapshots::Version;
use std::alloc::{AllocError, Global};
use std::marker::Model;
use std::sync::Arc;
use version_log::{Front, Published};

/// An entry of a version that is not yet published. It owns the version with the others, and a copy of the
/// reply: with it the answer takes no memory once the entry is in the history.
pub(crate) struct Draft {
    version: Arc<Version, Global>,
    session: u16,
    place: u64,
    reply: Reply,
}

impl Drop for Draft {
    fn drop(self) {
        let Draft {
            version: _,
            session: _,
            place: _,
            reply: _,
        } = self;
    }
}

impl Model for Draft {
    ghost use Rattle.std.specs.Arc.{arc_value};
    ghost use Rattle.std.specs.Coded.{codes};
    ghost use Rattle.model.specs.JsonCode.{coded_members};
    ghost use Rattle.updater_state.specs.Drafts.{Drafted, IsDraft};

    ghost Value = { Drafted };

    ghost coded = { Prim.hlevel (codes, coded_members) };

    ghost view = { λ d. record { version = arc_value d.version; session = d.session; place = d.place; reply = d.reply } };

    ghost invariant = { λ d. IsDraft (record { version = arc_value d.version; session = d.session; place = d.place; reply = d.reply }) };
}

impl Draft {
    /// The answer of the entry, once its version is published.
    fn into_outcome<J: Opening>(self, front: Front<J>) -> Outcome<J>
        requires { IsPublished J.base front self }
        ensures { result ≡ StoodAt (stands_of front self) }
    {
        let Draft {
            version,
            session: _,
            place,
            reply,
        } = self;
        let _recalled = front.count();
        let found = Published::new(version, front);
        Outcome::new(OutcomeKind::Stood(Answer::new(found, place, reply)))
    }

    fn session(&self) -> u16
        ensures { result ≡ self.now.session }
    {
        self.session
    }
}

/// The draft of the entry at a place.
fn draft_at(
    alloc: Global,
    version: &Arc<Version, Global>,
    place: u64,
) -> Result<Option<Draft>, AllocError>
    ensures { IfOk result (λ found. found ≡ option_map (draft_of (arc_value version.now) place) (entry_at (arc_value version.now).entries place)) }
{
    let Some(entry) = version.entry(place) else {
        return Ok(None);
    };
    Ok(Some(Draft {
        version: Arc::try_clone(version)?,
        session: entry.seat.session(),
        place,
        reply: entry.reply.copy(alloc)?,
    }))
}

/// The drafts of the entries behind a place, in the place of those that were there.
pub(crate) fn draft_all_after(
    alloc: Global,
    version: &Arc<Version, Global>,
    after: u64,
    drafts: &mut Vec<Draft>,
) -> Result<(), AllocError>
    requires { after ≤ length (arc_value version.now).entries }
    ensures { OnOk result (drafts.new.items ≡ drafts_from (arc_value version.now) after (drop after (arc_value version.now).entries)) }
{
    drafts.clear();
    for place in after..version.place() {
        let Some(draft) = draft_at(alloc, version, place + 1)? else {
            unreachable!()
        };
        drafts.push(draft)?;
    }
    Ok(())
}

/// The entry is in the history.
fn answer<J: Opening>(outcomes: &mut Outcomes<J>, draft: Draft, front: &Front<J>)
    requires { IsPublished J.base front.now draft }
    ensures { outcomes.new.items ≡ told outcomes.old.items draft.session (StoodAt (stands_of front.now draft)) }
{
    let session = draft.session();
    tell(outcomes, session, draft.into_outcome(front.again()));
}

/// Each entry is in the history. All drafts are taken out, and their room stays.
pub(crate) fn answer_all<J: Opening>(
    outcomes: &mut Outcomes<J>,
    drafts: &mut Vec<Draft>,
    front: &Front<J>,
)
    requires { All (IsPublished J.base front.now) drafts.old.items }
    ensures told { outcomes.new.items ≡ all_drafts_stand front.now outcomes.old.items drafts.old.items }
    ensures count { length outcomes.new.items ≡ length outcomes.old.items }
    ensures emptied { drafts.new.items ≡ [] }
{
    for draft in drafts.drain(..) {
        answer(outcomes, draft, front);
    }
}
