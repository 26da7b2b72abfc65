//! Trees over shared nodes, whose sides hold equally many values each. A tree is seen as its values,
//! from the newest to the oldest.
ghost use Rattle.std.specs.Prelude.{◌≡◌, [], IfOk, IfSome, IfNone, length, slice_get, option_copied};
ghost use Rattle.shared_list.specs.Tree.{IsRoot};

use std::alloc::AllocError;
use std::marker::Model;
use std::sync::Arc;

/// A tree, by the node at its root.
#[cycle(tree)]
#[derive(Drop)]
pub(crate) struct Tree<T> {
    pub(crate) root: Option<Arc<Node<T>>>,
}

/// A value, and two sides with as many older values each.
#[cycle(tree)]
#[derive(Drop)]
pub(crate) struct Node<T> {
    pub(crate) value: T,
    pub(crate) left: Tree<T>,
    pub(crate) right: Tree<T>,
}

impl<T> Model for Tree<T> {
    ghost use Rattle.std.specs.Prelude.{List, length};

    ghost Value = { List T };

    ghost use Rattle.shared_list.specs.Tree.{seen, IsEven};

    ghost view = { λ a. seen a.root };

    ghost invariant = { λ a. IsEven a.root };

    ghost size = { λ d. length d };

    ghost use Rattle.std.proofs.Common.{arith, length-append};

    ghost size_decreases = { λ a h. Prim.grind (arith, length-append) };
}

impl<T: Drop> Tree<T> {
    pub(crate) fn new() -> Self
        ensures { result ≡ [] }
    {
        Tree { root: None }
    }

    /// The node at the root.
    pub(crate) fn node(&self) -> Option<&Node<T>>
        ensures root { IfSome result (λ n. IsRoot self.now n.now) }
        ensures empty { IfNone result (self.now ≡ []) }
    {
        let Some(node) = &self.root else {
            return None;
        };
        let node: &Node<T> = node;
        Some(node)
    }

    /// The same tree, by its root.
    pub(crate) fn share(&self) -> Result<Self, AllocError>
        ensures { IfOk result (λ t. t ≡ self.now) }
    {
        match &self.root {
            None => Ok(Tree::new()),
            Some(node) => Ok(Tree {
                root: Some(Arc::try_clone(node)?),
            }),
        }
    }

    /// The value at a place, where the newest is at 0.
    pub(crate) fn get(&self, len: u64, place: u64) -> Option<&T>
        requires { len ≡ length self.now }
        ensures { option_copied result ≡ slice_get self.now place }
    {
        let mut at = self;
        let mut len = len;
        let mut place = place;
        while let Some(node) = at.node() {
            if place == 0 {
                return Some(&node.value);
            }
            place -= 1;
            len /= 2;
            if place < len {
                at = &node.left;
            } else {
                place -= len;
                at = &node.right;
            }
        }
        None
    }
}
