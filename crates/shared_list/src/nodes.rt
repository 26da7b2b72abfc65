//! The making of nodes: of trees, and of the links that hold them.
ghost use Rattle.std.specs.Prelude.{◌≡◌, ◌+◌, ◌^◌, ◌<◌, ◌++◌, ◌∷◌, IfOk, OnOk, length};
ghost use Rattle.shared_list.specs.Spine.{IsSkew};

use crate::spine::{Link, Spine};
use crate::tree::{Node, Tree};
use std::alloc::{AllocError, Global};
use std::sync::Arc;

/// Makes the nodes of one call on a list, and counts them.
#[derive(Drop)]
pub(crate) struct NodeMaker {
    alloc: Global,
    pub(crate) made: u64,
}

impl NodeMaker {
    pub(crate) fn new(alloc: Global) -> Self
        ensures { result.made ≡ 0 }
    {
        NodeMaker { alloc, made: 0 }
    }

    /// The one function that makes the node of a tree: the two sides are shared.
    pub(crate) fn make_tree<T: Drop>(
        &mut self,
        value: T,
        left: &Tree<T>,
        right: &Tree<T>,
    ) -> Result<Tree<T>, AllocError>
        requires even { length left.now ≡ length right.now }
        requires counts { self.old.made + 1 < 2 ^ 64 }
        ensures values { IfOk result (λ t. t ≡ value ∷ left.now ++ right.now) }
        ensures counted { OnOk result (self.new.made ≡ self.old.made + 1) }
    {
        let node = Node {
            value,
            left: left.share()?,
            right: right.share()?,
        };
        let root = Arc::new(self.alloc, node)?;
        self.made += 1;
        Ok(Tree { root: Some(root) })
    }

    /// The one function that makes a link: the older trees are shared.
    pub(crate) fn make_link<T: Drop>(
        &mut self,
        tree: Tree<T>,
        levels: u64,
        len: u64,
        rest: &Spine<T>,
    ) -> Result<Spine<T>, AllocError>
        requires whole { length tree + 1 ≡ 2 ^ levels }
        requires len { len ≡ length tree }
        requires skew { IsSkew (levels ∷ rest.now.1) }
        requires counts { self.old.made + 1 < 2 ^ 64 }
        ensures values { IfOk result (λ s. s.0 ≡ tree ++ rest.now.0) }
        ensures counted { OnOk result (self.new.made ≡ self.old.made + 1) }
    {
        let link = Link {
            tree,
            levels,
            len,
            rest: rest.share()?,
        };
        let head = Arc::new(self.alloc, link)?;
        self.made += 1;
        Ok(Spine { head: Some(head) })
    }
}
