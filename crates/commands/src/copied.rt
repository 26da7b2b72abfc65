//! Copies that share their texts and bodies.
ghost use Rattle.std.specs.Prelude.{◌≡◌, IfOk};

use std::alloc::{AllocError, Global};

/// What has copies that share its texts and bodies.
pub trait Copied: Drop {
    /// An equal value. Only memory is refused.
    fn copy(&self, alloc: Global) -> Result<Self, AllocError>
        ensures same { IfOk result (λ copy. copy ≡ self.now) };
}

/// A copy of each, in order.
pub fn copy_all<T: Copied>(alloc: Global, items: &[T]) -> Result<Vec<T>, AllocError>
    ensures same { IfOk result (λ copies. copies.items ≡ items.now) }
{
    let mut copies = Vec::with_capacity(alloc, items.len())?;
    for item in items {
        copies.push(item.copy(alloc)?)?;
    }
    Ok(copies)
}
