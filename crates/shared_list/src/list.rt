//! The list: the trees of its values, their number, and how many nodes the last call made.
ghost use Rattle.std.specs.Prelude.{◌≡◌, ◌↔◌, IsTrue, [], ◌++◌, ◌∷◌, ◌^◌, ◌<◌, IfOk, length, slice_get, option_copied};
ghost use Rattle.std.specs.Map.Iter.{ShowsInOrder, deref};

use crate::nodes::NodeMaker;
use crate::spine::Spine;
use crate::values::Values;
use std::alloc::{AllocError, Global};
use std::marker::Model;

/// A list that shares its values with the lists that it was made from.
///
/// No call changes a list: [`push`](SharedList::push) gives a new one, for which it makes two nodes,
/// and every older list holds what it held. A look-up takes a number of steps that grows with the
/// binary digits of [`len`](SharedList::len).
pub struct SharedList<T> {
    alloc: Global,
    spine: Spine<T>,
    len: u64,
    nodes_made: u64,
}

impl<T: Drop> Drop for SharedList<T> {
    fn drop(self) {
        let SharedList {
            alloc: _,
            spine: _,
            len: _,
            nodes_made: _,
        } = self;
    }
}

impl<T> Model for SharedList<T> {
    ghost use Rattle.std.specs.Prelude.{◌≡◌, length, reverse};
    ghost use Rattle.shared_list.specs.SharedList.{ListView};

    ghost Value = { ListView T };

    ghost view = { λ a. record { values = reverse a.spine.0; nodes_made = a.nodes_made } };

    ghost invariant = { λ a. a.len ≡ length a.spine.0 };
}

impl<T: Drop> SharedList<T> {
    /// The empty list, whose later lists take their memory from `alloc`.
    pub fn new(alloc: Global) -> Self
        ensures values { result.values ≡ [] }
        ensures no_nodes { result.nodes_made ≡ 0 }
    {
        SharedList {
            alloc,
            spine: Spine::new(),
            len: 0,
            nodes_made: 0,
        }
    }

    /// How many values the list holds, read at once.
    pub fn len(&self) -> u64
        ensures { result ≡ length self.now.values }
    {
        self.len
    }

    /// Whether the list holds no value.
    pub fn is_empty(&self) -> bool
        ensures { IsTrue result ↔ (self.now.values ≡ []) }
    {
        self.len == 0
    }

    /// How many nodes were made by the call that made this list.
    pub fn nodes_made(&self) -> u64
        ensures { result ≡ self.now.nodes_made }
    {
        self.nodes_made
    }

    /// The value that was the `n`th to be pushed, from 0.
    pub fn get(&self, n: u64) -> Option<&T>
        ensures { option_copied result ≡ slice_get self.now.values n }
    {
        if n >= self.len {
            return None;
        }
        self.spine.get(self.len - 1 - n)
    }

    /// All values, in the order of pushing. The walk takes no memory.
    pub fn iter(&self) -> Values<'_, T>
        ensures rest { result ≡ self.now.values }
        ensures fits { length result < 2 ^ 64 }
        ensures runs { ShowsInOrder (deref {X = T}) }
    {
        Values::all(&self.spine, self.len)
    }

    /// The same list, which shares all nodes. It takes no memory, but is refused at the largest
    /// count of owners of a node.
    pub fn share(&self) -> Result<Self, AllocError>
        ensures values { IfOk result (λ l. l.values ≡ self.now.values) }
        ensures no_nodes { IfOk result (λ l. l.nodes_made ≡ 0) }
    {
        Ok(SharedList {
            alloc: self.alloc,
            spine: self.spine.share()?,
            len: self.len,
            nodes_made: 0,
        })
    }

    /// The list with `value` at its end.
    ///
    /// A list of `u64::MAX` values, more than any memory holds, is refused one more as if for memory.
    pub fn push(&self, value: T) -> Result<Self, AllocError>
        ensures values { IfOk result (λ l. l.values ≡ self.now.values ++ value ∷ []) }
        ensures two_nodes { IfOk result (λ l. l.nodes_made ≡ 2) }
    {
        if self.len == u64::MAX {
            return Err(AllocError);
        }
        let mut nodes = NodeMaker::new(self.alloc);
        let spine = self.spine.push(value, &mut nodes)?;
        Ok(SharedList {
            alloc: self.alloc,
            spine,
            len: self.len + 1,
            nodes_made: nodes.made,
        })
    }
}
