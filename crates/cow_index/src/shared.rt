//! A value with several owners, seen as the value itself.
ghost use Rattle.std.specs.Prelude.{◌≡◌, IfOk};

use std::alloc::{AllocError, Global};
use std::marker::Model;
use std::sync::Arc;

/// A value that several maps hold. Two shares of one value are equal.
pub struct Shared<T> {
    arc: Arc<T>,
}

impl<T: Drop> Drop for Shared<T> {
    fn drop(self) {
        let Shared { arc: _ } = self;
    }
}

impl<T> Model for Shared<T> {
    ghost use Rattle.std.specs.Arc.{arc_value};

    ghost Value = { T };

    ghost view = { λ a. arc_value a.arc };
}

impl<T: Drop> Shared<T> {
    /// The value, in a block of its own, with one owner.
    pub fn new(alloc: Global, value: T) -> Result<Self, AllocError>
        ensures { IfOk result (λ s. s ≡ value) }
    {
        Ok(Shared {
            arc: Arc::new(alloc, value)?,
        })
    }

    /// One more owner of the same value. It takes no memory, but is refused at the largest count of
    /// owners.
    pub fn share(&self) -> Result<Self, AllocError>
        ensures { IfOk result (λ s. s ≡ self.now) }
    {
        Ok(Shared {
            arc: Arc::try_clone(&self.arc)?,
        })
    }

    /// The value that the owners share.
    pub fn get(&self) -> &T
        ensures { result.now ≡ self.now }
    {
        &self.arc
    }
}
