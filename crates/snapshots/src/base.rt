//! The database that a history begins from.
ghost use Rattle.std.specs.Prelude.{◌≡◌, None, Some, IfOk, option_copied};

use crate::database::Database;
use cow_index::Shared;
use std::alloc::{AllocError, Global};
use std::marker::Model;

/// The database that a history names as its base, behind one pointer, so that a version costs little
/// to share and to drop.
pub(crate) struct Base {
    /// A first epoch names none, and begins from the empty database.
    named: Option<Shared<Database>>,
}

impl Drop for Base {
    fn drop(self) {
        let Base { named: _ } = self;
    }
}

impl Model for Base {
    ghost use Rattle.std.specs.Prelude.{Option};
    ghost use Rattle.std.specs.Coded.{codes};
    ghost use Rattle.model.specs.JsonCode.{coded_members};
    ghost use Rattle.model.specs.Database.{Database};

    ghost Value = { Option Database };

    ghost coded = { Prim.hlevel (codes, coded_members) };

    ghost view = { λ b. b.named };
}

impl Base {
    /// That of a first epoch.
    pub(crate) fn unnamed() -> Base
        ensures { result ≡ None }
    {
        Base { named: None }
    }

    /// That of an epoch over this database.
    pub(crate) fn new(alloc: Global, database: Database) -> Result<Base, AllocError>
        ensures { IfOk result (λ b. b ≡ Some database) }
    {
        Ok(Base {
            named: Some(Shared::new(alloc, database)?),
        })
    }

    /// The database, where one is named.
    pub(crate) fn database(&self) -> Option<&Database>
        ensures { option_copied result ≡ self.now }
    {
        self.named.as_ref().map(Shared::get)
    }

    /// The same base. It takes no memory.
    pub(crate) fn share(&self) -> Result<Base, AllocError>
        ensures { IfOk result (λ b. b ≡ self.now) }
    {
        let named = match &self.named {
            Some(database) => Some(database.share()?),
            None => None,
        };
        Ok(Base { named })
    }
}
