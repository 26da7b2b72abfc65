//! What is asked of a document beside its body.

use std::marker::Model;

/// What beside its body is asked of a document.
#[derive(Debug, Clone, Copy, Drop)]
pub struct Options {
    /// In the place of a revision the first of the leaves that descend from it, in the winner's order.
    pub latest: bool,
    pub revs: bool,
    pub revs_info: bool,
    pub conflicts: bool,
    pub deleted_conflicts: bool,
}

impl Model for Options {
    ghost use Rattle.model.specs.Query.{Options};

    ghost Value = { Options };

    ghost view = { λ o. record { latest = o.latest; revs = o.revs; revs_info = o.revs_info; conflicts = o.conflicts; deleted_conflicts = o.deleted_conflicts } };

    ghost inverse = { λ o. record { latest = o.latest; revs = o.revs; revs_info = o.revs_info; conflicts = o.conflicts; deleted_conflicts = o.deleted_conflicts } };
}
