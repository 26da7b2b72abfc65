//! A walk over all values, which keeps the trees that it comes back to in an array.
ghost use Rattle.std.specs.Prelude.{◌≡◌, ◌+◌, ◌*◌, ◌^◌, ◌<◌, ◌≤◌, ◌++◌, ◌∷◌, [], IfSome, IfNone, length, reverse};
ghost use Rattle.std.specs.Iterator.{at_most};
ghost use Rattle.std.specs.Map.Iter.{TakesFirst, deref};
ghost use Rattle.shared_list.specs.Path.{held, waiting, due, FitFrom, IsDue};

use crate::spine::Spine;
use crate::tree::Tree;
use std::marker::Model;

/// No walk comes back to more: each of 64 levels leaves two.
pub(crate) const MAX_PLACES: usize = 192;

/// Trees whose values are yet to come, the newest first: with their levels, or with no level where
/// only the value at the root is yet to come.
#[derive(Drop)]
struct Path<'a, T> {
    places: [Option<(&'a Tree<T>, u64)>; MAX_PLACES],
    depth: usize,
}

impl<'a, T: Drop> Path<'a, T> {
    fn new() -> Self
        ensures depth { result.depth ≡ 0 }
        ensures empty { held result ≡ [] }
    {
        Path {
            places: [None; MAX_PLACES],
            depth: 0,
        }
    }

    fn push(&mut self, tree: &'a Tree<T>, levels: u64)
        requires fit { FitFrom 0 (held self.old) }
        requires room { self.old.depth < MAX_PLACES }
        requires fits { self.old.depth + 2 * levels ≤ MAX_PLACES }
        requires due { IsDue tree.now levels }
        ensures fit { FitFrom 0 (held self.new) }
        ensures depth { self.new.depth ≡ self.old.depth + 1 }
        ensures waiting { waiting (held self.new) ≡ due tree.now levels ++ waiting (held self.old) }
    {
        let depth = self.depth;
        let places = &mut self.places[..];
        places[depth] = Some((tree, levels));
        self.depth = depth + 1;
    }

    /// The tree whose values come next.
    fn pop(&mut self) -> Option<(&'a Tree<T>, u64)>
        requires fit { FitFrom 0 (held self.old) }
        requires depth { self.old.depth ≤ MAX_PLACES }
        ensures fit { FitFrom 0 (held self.new) }
        ensures room { IfSome result (λ p. self.new.depth + 2 * p.1 ≤ MAX_PLACES) }
        ensures due { IfSome result (λ p. IsDue p.0.now p.1) }
        ensures depth { self.new.depth ≤ MAX_PLACES }
        ensures waiting { IfSome result (λ p. waiting (held self.old) ≡ due p.0.now p.1 ++ waiting (held self.new)) }
        ensures none { IfNone result ((waiting (held self.old) ≡ []) × (self.new ≡ self.old)) }
    {
        if self.depth == 0 {
            return None;
        }
        let depth = self.depth - 1;
        let places = &self.places[..];
        let Some(place) = places[depth] else {
            unreachable!()
        };
        self.depth = depth;
        Some(place)
    }

    /// The oldest value of a whole tree; its others come before those that wait.
    fn descend(&mut self, tree: &'a Tree<T>, levels: u64) -> &'a T
        requires some { 0 < levels }
        requires due { IsDue tree.now levels }
        requires fit { FitFrom 0 (held self.old) }
        requires room { self.old.depth + 2 * levels ≤ MAX_PLACES }
        ensures fit { FitFrom 0 (held self.new) }
        ensures depth { self.new.depth ≤ MAX_PLACES }
        ensures waiting { result.now ∷ waiting (held self.new) ≡ reverse tree.now ++ waiting (held self.old) }
    {
        let mut at = tree;
        let mut levels = levels;
        while levels > 1 {
            let Some(node) = at.node() else {
                unreachable!()
            };
            levels -= 1;
            self.push(at, 0);
            self.push(&node.left, levels);
            at = &node.right;
        }
        let Some(node) = at.node() else {
            unreachable!()
        };
        &node.value
    }

    /// All trees of the spine.
    fn begin(&mut self, spine: &'a Spine<T>, len: u64)
        requires new { self.old.depth ≡ 0 }
        requires counted { len ≡ length spine.now.0 }
        ensures fit { FitFrom 0 (held self.new) }
        ensures depth { self.new.depth ≤ MAX_PLACES }
        ensures waiting { waiting (held self.new) ≡ reverse spine.now.0 }
    {
        if spine.is_empty() {
            return;
        }
        let mut at = spine;
        while let Some(link) = at.link() {
            self.push(&link.tree, link.levels);
            at = &link.rest;
        }
    }
}

/// A walk over all values of a [`SharedList`](crate::SharedList), in the order of pushing. It takes
/// no memory.
#[derive(Drop)]
pub struct Values<'a, T> {
    path: Path<'a, T>,
}

impl<'a, T> Model for Values<'a, T> {
    ghost use Rattle.std.specs.Prelude.{List, ◌≤◌};

    ghost Value = { List T };

    ghost use Rattle.shared_list.specs.declared.values.TheConstants.{MAX_PLACES};
    ghost use Rattle.shared_list.specs.Path.{held, waiting, FitFrom};

    ghost view = { λ a. waiting (held a.path) };

    ghost invariant = { λ a. FitFrom 0 (held a.path) × (a.path.depth ≤ MAX_PLACES) };
}

impl<'a, T: Drop> Values<'a, T> {
    pub(crate) fn all(spine: &'a Spine<T>, len: u64) -> Self
        requires { len ≡ length spine.now.0 }
        ensures rest { result ≡ reverse spine.now.0 }
        ensures fits { length result < 2 ^ 64 }
    {
        let mut path = Path::new();
        path.begin(spine, len);
        Values { path }
    }
}

impl<'a, T: Drop> Iterator for Values<'a, T> {
    type Item = &'a T;

    ghost next_gives = { TakesFirst deref };

    ghost remaining = { λ rest. at_most (length rest) };

    fn next(&mut self) -> Option<&'a T> {
        let (tree, levels) = self.path.pop()?;
        if levels > 0 {
            return Some(self.path.descend(tree, levels));
        }
        let Some(node) = tree.node() else {
            unreachable!()
        };
        Some(&node.value)
    }
}
