//! Ordinary edits.
ghost use Rattle.std.specs.Prelude.{◌≡◌, All, IfOk};
ghost use Rattle.model.specs.Command.{IsEdit};

use crate::copied::Copied;
use document_id::DocId;
use json_profile::Body;
use revision_id::RevId;
use std::alloc::{AllocError, Global};
use std::marker::Model;
use std::sync::Arc;

/// An edit of a document, over the revision that it names.
pub struct Edit {
    pub id: DocId,
    pub named: Option<RevId>,
    pub deleted: bool,
    pub body: Arc<Body>,
}

impl Drop for Edit {
    fn drop(self) {
        let Edit {
            id: _,
            named: _,
            deleted: _,
            body: _,
        } = self;
    }
}

impl Model for Edit {
    ghost use Rattle.std.specs.Arc.{arc_value};
    ghost use Rattle.model.specs.Command.{Edit};
    ghost use Rattle.std.specs.Coded.{codes};
    ghost use Rattle.model.specs.JsonCode.{coded_members};

    ghost Value = { Edit };

    ghost coded = { Prim.hlevel (codes, coded_members) };

    ghost view = { λ e. record { id = e.id; named = e.named; deleted = e.deleted; body = arc_value e.body } };
}

impl Edit {
    /// Recalls the limits that the parts keep.
    pub(crate) fn recall_limits(&self)
        ensures is_edit { IsEdit self.now }
    {
        let _recalled = self.id.as_str();
        if let Some(rev) = self.named {
            let _recalled = rev.generation();
        }
        let _recalled = self.body.text();
    }
}

impl Copied for Edit {
    fn copy(&self, _alloc: Global) -> Result<Edit, AllocError> {
        Ok(Edit {
            id: self.id.share()?,
            named: self.named,
            deleted: self.deleted,
            body: self.body.clone()?,
        })
    }
}

/// Recalls the limits that all edits keep: for the contract alone, since a list
/// says nothing of what the types of its items keep.
pub(crate) fn recall_all_limits(edits: &[Edit])
    ensures are_edits { All IsEdit edits.now }
{
    for edit in edits {
        edit.recall_limits();
    }
}
