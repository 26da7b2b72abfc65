//! Whether two things that are asked or answered are the same, found without allocation.
ghost use Rattle.std.specs.Prelude.{◌≡◌, ◌↔◌, IsTrue, option_copied};

use crate::edit::Edit;
use crate::merge::Merge;
use crate::named::{AskedRevisions, NamedRevisions};
use document_id::DocId;
use json_profile::Body;
use model::Refusal;
use revision_id::RevId;

/// What can be compared with another of its kind.
pub(crate) trait Same: Drop {
    /// Whether the two are equal.
    fn is_same(&self, other: &Self) -> bool
        ensures same { IsTrue result ↔ (self.now ≡ other.now) };
}

/// Whether the two have the same items, in order.
pub(crate) fn are_same<T: Same>(mine: &[T], theirs: &[T]) -> bool
    ensures same { IsTrue result ↔ (mine.now ≡ theirs.now) }
{
    if mine.len() != theirs.len() {
        return false;
    }
    for place in 0..mine.len() {
        if !mine[place].is_same(&theirs[place]) {
            return false;
        }
    }
    true
}

impl Same for RevId {
    fn is_same(&self, other: &RevId) -> bool {
        *self == *other
    }
}

impl Same for Result<RevId, Refusal> {
    fn is_same(&self, other: &Result<RevId, Refusal>) -> bool {
        match (self, other) {
            (Ok(one), Ok(other)) => one.is_same(other),
            (Err(one), Err(other)) => one == other,
            _ => false,
        }
    }
}

impl Same for Body {
    fn is_same(&self, other: &Body) -> bool {
        Body::is_same(self, other)
    }
}

impl Same for Edit {
    fn is_same(&self, other: &Edit) -> bool {
        is_same_id(&self.id, &other.id)
            && is_same_option(self.named.as_ref(), other.named.as_ref())
            && self.deleted == other.deleted
            && self.body.is_same(&other.body)
    }
}

impl Same for Merge {
    fn is_same(&self, other: &Merge) -> bool {
        is_same_id(self.id(), other.id())
            && are_same(self.path(), other.path())
            && self.deleted() == other.deleted()
            && self.body().is_same(other.body())
    }
}

impl Same for AskedRevisions {
    fn is_same(&self, other: &AskedRevisions) -> bool {
        is_same_id(&self.id, &other.id) && are_same(&self.revisions, &other.revisions)
    }
}

impl Same for NamedRevisions {
    fn is_same(&self, other: &NamedRevisions) -> bool {
        are_same(self.documents(), other.documents())
    }
}

/// Whether the two have one text.
pub(crate) fn is_same_id(one: &DocId, other: &DocId) -> bool
    ensures same { IsTrue result ↔ (one.now ≡ other.now) }
{
    one.as_str() == other.as_str()
}

/// Whether there are two equal things, or none of either.
pub(crate) fn is_same_option<T: Same>(one: Option<&T>, other: Option<&T>) -> bool
    ensures same { IsTrue result ↔ (option_copied one.entry ≡ option_copied other.entry) }
{
    match (one, other) {
        (Some(one), Some(other)) => one.is_same(other),
        (None, None) => true,
        _ => false,
    }
}
