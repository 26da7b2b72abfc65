//! Insertions into a tree that is given up, removals from it and what is joined to it: a node that no
//! other tree holds is changed in its place, and any other is shared as ever.
ghost use Rattle.std.specs.Prelude.{◌≡◌, ◌+◌, ◌-◌, ◌*◌, ◌^◌, ◌<◌, ◌≤◌, max, ◌∷◌, ◌++◌, IfOk, OnOk, length, T};
ghost use Rattle.std.specs.Arc.{arc_value};
ghost use Rattle.cow_index.specs.Height.{DifferByAtMost, IsHeightAfterRebalance};
ghost use Rattle.std.specs.FinMap.Entries.{put, is_sorted};
ghost use Rattle.cow_index.specs.Tree.{pair_of};
ghost use Rattle.cow_index.specs.NodeMaker.{MakesAtMost};
ghost use Rattle.cow_index.specs.Entries.{without};

use crate::nodes::NodeMaker;
use crate::tree::{Entry, Node, Tree};
use index_key::IndexKey;
use std::alloc::AllocError;
use std::cmp::Ordering;
use std::mem::replace;
use std::sync::Arc;

/// The left side of a root, which is left with the empty tree there if no other tree holds it.
pub(crate) fn take_left<K: Drop, V: Drop>(
    root: &mut Arc<Node<K, V>>,
) -> Result<Tree<K, V>, AllocError>
    ensures left { IfOk result (λ t. t ≡ (arc_value root.old).left) }
    ensures entry { (arc_value root.new).entry ≡ (arc_value root.old).entry }
    ensures right { (arc_value root.new).right ≡ (arc_value root.old).right }
{
    match Arc::get_mut(root) {
        Some(node) => Ok(replace(&mut node.left, Tree::new())),
        None => root.left.share(),
    }
}

/// The right side of a root, which is left with the empty tree there if no other tree holds it.
pub(crate) fn take_right<K: Drop, V: Drop>(
    root: &mut Arc<Node<K, V>>,
) -> Result<Tree<K, V>, AllocError>
    ensures right { IfOk result (λ t. t ≡ (arc_value root.old).right) }
    ensures entry { (arc_value root.new).entry ≡ (arc_value root.old).entry }
    ensures left { (arc_value root.new).left ≡ (arc_value root.old).left }
{
    match Arc::get_mut(root) {
        Some(node) => Ok(replace(&mut node.right, Tree::new())),
        None => root.right.share(),
    }
}

impl NodeMaker {
    /// As [`make`](NodeMaker::make), of a root with another left side, in its place if no other tree holds it.
    fn put_left<K: Drop, V: Drop>(
        &mut self,
        mut root: Arc<Node<K, V>>,
        left: Tree<K, V>,
    ) -> Result<Tree<K, V>, AllocError>
        requires level { DifferByAtMost 1 left.1 (arc_value root).right.1 }
        requires fits { length left.0 + length (arc_value root).right.0 + 1 < 2 ^ 64 }
        requires counts { self.old.made + 1 < 2 ^ 64 }
        ensures entries { IfOk result (λ t. t.0 ≡ left.0 ++ pair_of (arc_value root).entry ∷ (arc_value root).right.0) }
        ensures height { IfOk result (λ t. t.1 ≡ max left.1 (arc_value root).right.1 + 1) }
        ensures counted { OnOk result (self.new.made ≡ self.old.made + 1) }
        ensures few { MakesAtMost 1 self.old self.new }
    {
        let Some(node) = Arc::get_mut(&mut root) else {
            return self.make(left, Arc::try_clone(&root.entry)?, root.right.share()?);
        };
        node.height = left.height().max(node.right.height()) + 1;
        node.len = left.len() + node.right.len() + 1;
        node.left = left;
        self.made += 1;
        Ok(Tree { root: Some(root) })
    }

    /// As [`make`](NodeMaker::make), of a root with another right side, in its place if no other tree holds it.
    fn put_right<K: Drop, V: Drop>(
        &mut self,
        mut root: Arc<Node<K, V>>,
        right: Tree<K, V>,
    ) -> Result<Tree<K, V>, AllocError>
        requires level { DifferByAtMost 1 (arc_value root).left.1 right.1 }
        requires fits { length (arc_value root).left.0 + length right.0 + 1 < 2 ^ 64 }
        requires counts { self.old.made + 1 < 2 ^ 64 }
        ensures entries { IfOk result (λ t. t.0 ≡ (arc_value root).left.0 ++ pair_of (arc_value root).entry ∷ right.0) }
        ensures height { IfOk result (λ t. t.1 ≡ max (arc_value root).left.1 right.1 + 1) }
        ensures counted { OnOk result (self.new.made ≡ self.old.made + 1) }
        ensures few { MakesAtMost 1 self.old self.new }
    {
        let Some(node) = Arc::get_mut(&mut root) else {
            return self.make(root.left.share()?, Arc::try_clone(&root.entry)?, right);
        };
        node.height = node.left.height().max(right.height()) + 1;
        node.len = node.left.len() + right.len() + 1;
        node.right = right;
        self.made += 1;
        Ok(Tree { root: Some(root) })
    }

    /// As [`balance`](NodeMaker::balance), of a root with another left side.
    pub(crate) fn balance_left<K: Drop, V: Drop>(
        &mut self,
        root: Arc<Node<K, V>>,
        left: Tree<K, V>,
    ) -> Result<Tree<K, V>, AllocError>
        requires level { DifferByAtMost 2 left.1 (arc_value root).right.1 }
        requires fits { length left.0 + length (arc_value root).right.0 + 1 < 2 ^ 64 }
        requires counts { self.old.made + 3 < 2 ^ 64 }
        ensures entries { IfOk result (λ t. t.0 ≡ left.0 ++ pair_of (arc_value root).entry ∷ (arc_value root).right.0) }
        ensures height { IfOk result (λ t. IsHeightAfterRebalance left.1 (arc_value root).right.1 t.1) }
        ensures some { OnOk result (self.old.made < self.new.made) }
        ensures few { MakesAtMost 3 self.old self.new }
    {
        let (left_height, right_height) = (left.height(), root.right.height());
        if left_height > right_height.saturating_add(1) {
            self.rotate_right(&left, &root.entry, &root.right)
        } else if right_height > left_height.saturating_add(1) {
            self.rotate_left(&left, &root.entry, &root.right)
        } else {
            self.put_left(root, left)
        }
    }

    /// As [`balance`](NodeMaker::balance), of a root with another right side.
    pub(crate) fn balance_right<K: Drop, V: Drop>(
        &mut self,
        root: Arc<Node<K, V>>,
        right: Tree<K, V>,
    ) -> Result<Tree<K, V>, AllocError>
        requires level { DifferByAtMost 2 (arc_value root).left.1 right.1 }
        requires fits { length (arc_value root).left.0 + length right.0 + 1 < 2 ^ 64 }
        requires counts { self.old.made + 3 < 2 ^ 64 }
        ensures entries { IfOk result (λ t. t.0 ≡ (arc_value root).left.0 ++ pair_of (arc_value root).entry ∷ right.0) }
        ensures height { IfOk result (λ t. IsHeightAfterRebalance (arc_value root).left.1 right.1 t.1) }
        ensures some { OnOk result (self.old.made < self.new.made) }
        ensures few { MakesAtMost 3 self.old self.new }
    {
        let (left_height, right_height) = (root.left.height(), right.height());
        if left_height > right_height.saturating_add(1) {
            self.rotate_right(&root.left, &root.entry, &right)
        } else if right_height > left_height.saturating_add(1) {
            self.rotate_left(&root.left, &root.entry, &right)
        } else {
            self.put_right(root, right)
        }
    }
}

impl<K: Drop, V: Drop> Tree<K, V> {
    /// The entries of the tree, the entry, and those of a tree that is no higher, balanced: `right` hangs
    /// where the right edge of the tree is as low.
    pub(crate) fn into_joined(
        self,
        entry: Arc<Entry<K, V>>,
        right: Tree<K, V>,
        nodes: &mut NodeMaker,
    ) -> Result<Self, AllocError>
        requires no_higher { right.1 ≤ self.1 }
        requires fits { length self.0 + length right.0 + 1 < 2 ^ 64 }
        requires counts { nodes.old.made + 3 * (self.1 - right.1) + 1 < 2 ^ 64 }
        ensures entries { IfOk result (λ t. t.0 ≡ self.0 ++ pair_of entry ∷ right.0) }
        ensures height { IfOk result (λ t. (self.1 ≤ t.1) × (t.1 ≤ self.1 + 1)) }
        ensures some { OnOk result (nodes.old.made < nodes.new.made) }
        ensures few { MakesAtMost (3 * (self.1 - right.1) + 1) nodes.old nodes.new }
    {
        if self.height() <= right.height() + 1 {
            return nodes.make(self, entry, right);
        }
        let Some(mut root) = self.into_root() else {
            unreachable!()
        };
        let side = take_right(&mut root)?;
        let right = side.into_joined(entry, right, nodes)?;
        nodes.balance_right(root, right)
    }
}

impl<K: IndexKey, V: Drop> Tree<K, V> {
    /// As [`insert`](Tree::insert), of a tree that is given up.
    pub(crate) fn into_with(
        self,
        entry: Arc<Entry<K, V>>,
        nodes: &mut NodeMaker,
    ) -> Result<Self, AllocError>
        requires sorted { T (is_sorted K.cmp self.0) }
        requires fits { length self.0 + 1 < 2 ^ 64 }
        requires counts { nodes.old.made + 3 * self.1 + 1 < 2 ^ 64 }
        ensures entries { IfOk result (λ t. t.0 ≡ put K.cmp (pair_of entry).0 (pair_of entry).1 self.0) }
        ensures height { IfOk result (λ t. (self.1 ≤ t.1) × (t.1 ≤ self.1 + 1)) }
        ensures some { OnOk result (nodes.old.made < nodes.new.made) }
        ensures few { MakesAtMost (3 * self.1 + 1) nodes.old nodes.new }
    {
        let mut root = match self.into_sole() {
            Ok(root) => root,
            Err(tree) => return tree.insert(entry, nodes),
        };
        let new: &Entry<K, V> = &entry;
        match root.compare(&new.key) {
            Ordering::Less => {
                let side = take_left(&mut root)?;
                let left = side.into_with(entry, nodes)?;
                nodes.balance_left(root, left)
            }
            Ordering::Greater => {
                let side = take_right(&mut root)?;
                let right = side.into_with(entry, nodes)?;
                nodes.balance_right(root, right)
            }
            Ordering::Equal => nodes.make(root.left.share()?, entry, root.right.share()?),
        }
    }

    /// As [`remove`](Tree::remove), of a tree that is given up.
    pub(crate) fn into_without(self, key: &K, nodes: &mut NodeMaker) -> Result<Self, AllocError>
        requires sorted { T (is_sorted K.cmp self.0) }
        requires counts { nodes.old.made + 3 * self.1 < 2 ^ 64 }
        ensures entries { IfOk result (λ t. t.0 ≡ without K.cmp key.now self.0) }
        ensures height { IfOk result (λ t. (t.1 ≤ self.1) × (self.1 ≤ t.1 + 1)) }
        ensures few { MakesAtMost (3 * self.1) nodes.old nodes.new }
    {
        let mut root = match self.into_sole() {
            Ok(root) => root,
            Err(tree) => return tree.remove(key, nodes),
        };
        match root.compare(key) {
            Ordering::Less => {
                let side = take_left(&mut root)?;
                let left = side.into_without(key, nodes)?;
                nodes.balance_left(root, left)
            }
            Ordering::Greater => {
                let side = take_right(&mut root)?;
                let right = side.into_without(key, nodes)?;
                nodes.balance_right(root, right)
            }
            Ordering::Equal => nodes.join(&root.left, &root.right),
        }
    }
}
