//! The making of nodes: balanced trees from two sides and the entry between them.
ghost use Rattle.std.specs.Prelude.{◌≡◌, ◌+◌, ◌*◌, ◌^◌, ◌<◌, ◌≤◌, max, ◌∷◌, ◌++◌, IfOk, OnOk, length, drop};
ghost use Rattle.std.specs.Arc.{arc_value};
ghost use Rattle.cow_index.specs.Tree.{pair_of, entries_of, height_of, IsRoot, IsLevel};
ghost use Rattle.cow_index.specs.NodeMaker.{MakesAtMost};
ghost use Rattle.cow_index.specs.Height.{DifferByAtMost, IsHeightAfterRebalance};

use crate::tree::{Entry, Node, Tree};
use std::alloc::{AllocError, Global};
use std::sync::Arc;

/// Makes the nodes of one call on a map, and counts them.
#[derive(Drop)]
pub(crate) struct NodeMaker {
    alloc: Global,
    pub(crate) made: u64,
}

impl NodeMaker {
    pub(crate) fn new(alloc: Global) -> Self
        ensures { result.made ≡ 0 }
    {
        NodeMaker { alloc, made: 0 }
    }

    /// The one function that makes a node: it takes over the two sides and the entry.
    #[inline(always)]
    pub(crate) fn node<K: Drop, V: Drop>(
        &mut self,
        left: Tree<K, V>,
        entry: Arc<Entry<K, V>>,
        right: Tree<K, V>,
    ) -> Result<Arc<Node<K, V>>, AllocError>
        requires fits { length left.0 + length right.0 + 1 < 2 ^ 64 }
        requires counts { self.old.made + 1 < 2 ^ 64 }
        ensures root { IfOk result (λ a. IsRoot (entries_of (arc_value a), height_of (arc_value a)) (arc_value a)) }
        ensures left { IfOk result (λ a. (arc_value a).left ≡ left) }
        ensures entry { IfOk result (λ a. (arc_value a).entry ≡ entry) }
        ensures right { IfOk result (λ a. (arc_value a).right ≡ right) }
        ensures level { IfOk result (λ a. DifferByAtMost 1 left.1 right.1 → IsLevel (entries_of (arc_value a), height_of (arc_value a)) (arc_value a)) }
        ensures counted { OnOk result (self.new.made ≡ self.old.made + 1) }
        ensures few { MakesAtMost 1 self.old self.new }
    {
        let node = Node {
            height: left.height().max(right.height()) + 1,
            len: left.len() + right.len() + 1,
            left,
            entry,
            right,
        };
        let node = Arc::new(self.alloc, node)?;
        self.made += 1;
        Ok(node)
    }

    /// A balanced tree over sides that are level.
    #[inline(always)]
    pub(crate) fn make<K: Drop, V: Drop>(
        &mut self,
        left: Tree<K, V>,
        entry: Arc<Entry<K, V>>,
        right: Tree<K, V>,
    ) -> Result<Tree<K, V>, AllocError>
        requires level { DifferByAtMost 1 left.1 right.1 }
        requires fits { length left.0 + length right.0 + 1 < 2 ^ 64 }
        requires counts { self.old.made + 1 < 2 ^ 64 }
        ensures entries { IfOk result (λ t. t.0 ≡ left.0 ++ pair_of entry ∷ right.0) }
        ensures height { IfOk result (λ t. t.1 ≡ max left.1 right.1 + 1) }
        ensures counted { OnOk result (self.new.made ≡ self.old.made + 1) }
        ensures few { MakesAtMost 1 self.old self.new }
    {
        Ok(Tree {
            root: Some(self.node(left, entry, right)?),
        })
    }

    /// The same over sides that other nodes hold, as they do the entry.
    fn make_shared<K: Drop, V: Drop>(
        &mut self,
        left: &Tree<K, V>,
        entry: &Arc<Entry<K, V>>,
        right: &Tree<K, V>,
    ) -> Result<Tree<K, V>, AllocError>
        requires level { DifferByAtMost 1 left.now.1 right.now.1 }
        requires fits { length left.now.0 + length right.now.0 + 1 < 2 ^ 64 }
        requires counts { self.old.made + 1 < 2 ^ 64 }
        ensures entries { IfOk result (λ t. t.0 ≡ left.now.0 ++ pair_of entry.now ∷ right.now.0) }
        ensures height { IfOk result (λ t. t.1 ≡ max left.now.1 right.now.1 + 1) }
        ensures counted { OnOk result (self.new.made ≡ self.old.made + 1) }
        ensures few { MakesAtMost 1 self.old self.new }
    {
        self.make(left.share()?, Arc::try_clone(entry)?, right.share()?)
    }

    /// The same over a left side that is two levels higher: it is turned to the right, once or twice.
    pub(crate) fn rotate_right<K: Drop, V: Drop>(
        &mut self,
        left: &Tree<K, V>,
        entry: &Arc<Entry<K, V>>,
        right: &Tree<K, V>,
    ) -> Result<Tree<K, V>, AllocError>
        requires two_higher { left.now.1 ≡ right.now.1 + 2 }
        requires fits { length left.now.0 + length right.now.0 + 1 < 2 ^ 64 }
        requires counts { self.old.made + 3 < 2 ^ 64 }
        ensures entries { IfOk result (λ t. t.0 ≡ left.now.0 ++ pair_of entry.now ∷ right.now.0) }
        ensures height { IfOk result (λ t. (left.now.1 ≤ t.1) × (t.1 ≤ left.now.1 + 1)) }
        ensures some { OnOk result (self.old.made < self.new.made) }
        ensures few { MakesAtMost 3 self.old self.new }
    {
        let Some(node) = left.node() else {
            unreachable!()
        };
        if node.left.height() >= node.right.height() {
            let right = self.make_shared(&node.right, entry, right)?;
            return self.make_shared(&node.left, &node.entry, &right);
        }
        let Some(middle) = node.right.node() else {
            unreachable!()
        };
        let left = self.make_shared(&node.left, &node.entry, &middle.left)?;
        let right = self.make_shared(&middle.right, entry, right)?;
        self.make_shared(&left, &middle.entry, &right)
    }

    /// The same over a right side that is two levels higher: it is turned to the left, once or twice.
    pub(crate) fn rotate_left<K: Drop, V: Drop>(
        &mut self,
        left: &Tree<K, V>,
        entry: &Arc<Entry<K, V>>,
        right: &Tree<K, V>,
    ) -> Result<Tree<K, V>, AllocError>
        requires two_higher { right.now.1 ≡ left.now.1 + 2 }
        requires fits { length left.now.0 + length right.now.0 + 1 < 2 ^ 64 }
        requires counts { self.old.made + 3 < 2 ^ 64 }
        ensures entries { IfOk result (λ t. t.0 ≡ left.now.0 ++ pair_of entry.now ∷ right.now.0) }
        ensures height { IfOk result (λ t. (right.now.1 ≤ t.1) × (t.1 ≤ right.now.1 + 1)) }
        ensures some { OnOk result (self.old.made < self.new.made) }
        ensures few { MakesAtMost 3 self.old self.new }
    {
        let Some(node) = right.node() else {
            unreachable!()
        };
        if node.right.height() >= node.left.height() {
            let left = self.make_shared(left, entry, &node.left)?;
            return self.make_shared(&left, &node.entry, &node.right);
        }
        let Some(middle) = node.left.node() else {
            unreachable!()
        };
        let left = self.make_shared(left, entry, &middle.left)?;
        let right = self.make_shared(&middle.right, &node.entry, &node.right)?;
        self.make_shared(&left, &middle.entry, &right)
    }

    /// A tree over sides whose heights differ by at most two.
    #[inline(always)]
    pub(crate) fn balance<K: Drop, V: Drop>(
        &mut self,
        left: Tree<K, V>,
        entry: Arc<Entry<K, V>>,
        right: Tree<K, V>,
    ) -> Result<Tree<K, V>, AllocError>
        requires level { DifferByAtMost 2 left.1 right.1 }
        requires fits { length left.0 + length right.0 + 1 < 2 ^ 64 }
        requires counts { self.old.made + 3 < 2 ^ 64 }
        ensures entries { IfOk result (λ t. t.0 ≡ left.0 ++ pair_of entry ∷ right.0) }
        ensures height { IfOk result (λ t. IsHeightAfterRebalance left.1 right.1 t.1) }
        ensures some { OnOk result (self.old.made < self.new.made) }
        ensures few { MakesAtMost 3 self.old self.new }
    {
        let (left_height, right_height) = (left.height(), right.height());
        if left_height > right_height.saturating_add(1) {
            self.rotate_right(&left, &entry, &right)
        } else if right_height > left_height.saturating_add(1) {
            self.rotate_left(&left, &entry, &right)
        } else {
            self.make(left, entry, right)
        }
    }

    /// The tree without its first entry.
    pub(crate) fn without_first<K: Drop, V: Drop>(
        &mut self,
        tree: &Tree<K, V>,
    ) -> Result<Tree<K, V>, AllocError>
        requires counts { self.old.made + 3 * tree.now.1 < 2 ^ 64 }
        ensures entries { IfOk result (λ t. t.0 ≡ drop 1 tree.now.0) }
        ensures height { IfOk result (λ t. (t.1 ≤ tree.now.1) × (tree.now.1 ≤ t.1 + 1)) }
        ensures few { MakesAtMost (3 * tree.now.1) self.old self.new }
    {
        let Some(node) = tree.node() else {
            return Ok(Tree::new());
        };
        if node.left.len() == 0 {
            return node.right.share();
        }
        let left = self.without_first(&node.left)?;
        self.balance(left, Arc::try_clone(&node.entry)?, node.right.share()?)
    }

    /// The entries of both sides, whose heights differ by at most one.
    pub(crate) fn join<K: Drop, V: Drop>(
        &mut self,
        left: &Tree<K, V>,
        right: &Tree<K, V>,
    ) -> Result<Tree<K, V>, AllocError>
        requires level { DifferByAtMost 1 left.now.1 right.now.1 }
        requires fits { length left.now.0 + length right.now.0 < 2 ^ 64 }
        requires counts { self.old.made + 3 * right.now.1 + 3 < 2 ^ 64 }
        ensures entries { IfOk result (λ t. t.0 ≡ left.now.0 ++ right.now.0) }
        ensures height { IfOk result (λ t. (max left.now.1 right.now.1 ≤ t.1) × (t.1 ≤ max left.now.1 right.now.1 + 1)) }
        ensures few { MakesAtMost (3 * right.now.1 + 3) self.old self.new }
    {
        let Some(first) = right.first() else {
            return left.share();
        };
        let rest = self.without_first(right)?;
        self.balance(left.share()?, Arc::try_clone(first)?, rest)
    }
}
