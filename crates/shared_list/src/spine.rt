//! The trees of a list, from the newest to the oldest.
ghost use Rattle.std.specs.Prelude.{◌≡◌, ◌↔◌, ◌≤◌, ◌+◌, ◌^◌, ◌<◌, [], ◌∷◌, IfOk, OnOk, IsTrue, IfSome, IfNone, length, slice_get, option_copied};
ghost use Rattle.shared_list.specs.Spine.{IsFirst, IsSkew, sizes};

use crate::nodes::NodeMaker;
use crate::tree::Tree;
use std::alloc::AllocError;
use std::marker::Model;
use std::sync::Arc;

/// The trees, by the link of the first.
#[cycle(spine)]
#[derive(Drop)]
pub(crate) struct Spine<T> {
    pub(crate) head: Option<Arc<Link<T>>>,
}

/// A tree with its number of levels and of values, before the older trees, none of which has fewer
/// levels.
#[cycle(spine)]
#[derive(Drop)]
pub(crate) struct Link<T> {
    pub(crate) tree: Tree<T>,
    pub(crate) levels: u64,
    pub(crate) len: u64,
    pub(crate) rest: Spine<T>,
}

impl<T> Model for Spine<T> {
    ghost use Rattle.std.specs.Prelude.{ℕ, List, length};

    ghost Value = { List T × List ℕ };

    ghost use Rattle.shared_list.specs.Spine.{seen, IsHeld};

    ghost view = { λ a. seen a.head };

    ghost invariant = { λ a. IsHeld a.head };

    ghost size = { λ d. length d.1 };

    ghost use Rattle.std.proofs.Common.{arith};

    ghost size_decreases = { λ a h. Prim.grind (arith) };
}

impl<T: Drop> Spine<T> {
    pub(crate) fn new() -> Self
        ensures { result ≡ ([], []) }
    {
        Spine { head: None }
    }

    /// The link of the first tree.
    pub(crate) fn link(&self) -> Option<&Link<T>>
        ensures first { IfSome result (λ l. IsFirst self.now l.now) }
        ensures empty { IfNone result (self.now ≡ ([], [])) }
    {
        let Some(link) = &self.head else {
            return None;
        };
        let link: &Link<T> = link;
        Some(link)
    }

    pub(crate) fn is_empty(&self) -> bool
        requires { length self.now.0 < 2 ^ 64 }
        ensures empty { IsTrue result ↔ (self.now ≡ ([], [])) }
        ensures few { length self.now.1 ≤ 65 }
    {
        match self.link() {
            None => true,
            Some(_) => false,
        }
    }

    /// The same trees, by the link of the first.
    pub(crate) fn share(&self) -> Result<Self, AllocError>
        ensures same { IfOk result (λ s. s ≡ self.now) }
        ensures full { IfOk result (λ s. length s.0 ≡ sizes s.1) }
    {
        match &self.head {
            None => Ok(Spine::new()),
            Some(link) => Ok(Spine {
                head: Some(Arc::try_clone(link)?),
            }),
        }
    }

    /// A tree of its own for the value.
    fn push_alone(&self, value: T, nodes: &mut NodeMaker) -> Result<Self, AllocError>
        requires skew { IsSkew (1 ∷ self.now.1) }
        requires counts { nodes.old.made + 2 < 2 ^ 64 }
        ensures values { IfOk result (λ s. s.0 ≡ value ∷ self.now.0) }
        ensures counted { OnOk result (nodes.new.made ≡ nodes.old.made + 2) }
    {
        let tree = nodes.make_tree(value, &Tree::new(), &Tree::new())?;
        nodes.make_link(tree, 1, 1, self)
    }

    /// The values with a newer one: it joins the first two trees if they have equally many levels.
    pub(crate) fn push(&self, value: T, nodes: &mut NodeMaker) -> Result<Self, AllocError>
        requires fits { length self.now.0 + 1 < 2 ^ 64 }
        requires counts { nodes.old.made + 2 < 2 ^ 64 }
        ensures values { IfOk result (λ s. s.0 ≡ value ∷ self.now.0) }
        ensures counted { OnOk result (nodes.new.made ≡ nodes.old.made + 2) }
    {
        let Some(first) = self.link() else {
            return self.push_alone(value, nodes);
        };
        let Some(second) = first.rest.link() else {
            return self.push_alone(value, nodes);
        };
        if first.levels != second.levels {
            return self.push_alone(value, nodes);
        }
        let tree = nodes.make_tree(value, &first.tree, &second.tree)?;
        let (levels, len) = (first.levels + 1, first.len + second.len + 1);
        nodes.make_link(tree, levels, len, &second.rest)
    }

    /// The value at a place, where the newest is at 0.
    pub(crate) fn get(&self, place: u64) -> Option<&T>
        ensures { option_copied result ≡ slice_get self.now.0 place }
    {
        let mut at = self;
        let mut place = place;
        while let Some(link) = at.link() {
            if place < link.len {
                return link.tree.get(link.len, place);
            }
            place -= link.len;
            at = &link.rest;
        }
        None
    }
}
