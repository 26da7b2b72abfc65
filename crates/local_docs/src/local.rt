//! One local document.
ghost use Rattle.std.specs.Prelude.{◌≡◌, IfOk};

use json_profile::Body;
use std::marker::Model;
use std::sync::Arc;

/// A local document.
pub struct LocalDoc {
    /// The number of its revision, from 1.
    pub counter: u32,
    pub body: Arc<Body>,
}

impl Drop for LocalDoc {
    fn drop(self) {
        let LocalDoc {
            counter: _,
            body: _,
        } = self;
    }
}

impl Model for LocalDoc {
    ghost use Rattle.std.specs.Arc.{arc_value};
    ghost use Rattle.std.specs.Coded.{codes};
    ghost use Rattle.model.specs.JsonCode.{coded_members};
    ghost use Rattle.model.specs.Local.{Local};

    ghost Value = { Local };

    ghost coded = { Prim.hlevel (codes, coded_members) };

    ghost view = { λ l. record { counter = l.counter; body = arc_value l.body } };
}
