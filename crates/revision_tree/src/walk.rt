//! A walk along the nodes of a tree.
ghost use Rattle.std.specs.Prelude.{◌≡◌, [], length, option_copied};
ghost use Rattle.std.specs.Iterator.{YieldsFirstRef, item_count};
ghost use Rattle.revision_tree.specs.Rows.{nodes_of};
ghost use Rattle.revision_tree.specs.Walk.{left_of};

use crate::node::Node;
use crate::rows::Rows;
use std::sync::Arc;

/// The revisions of a tree, in ascending order.
#[derive(Drop)]
pub struct Nodes<'a> {
    piece: &'a [Node],
    older: &'a [Arc<Vec<Node>>],
    last: &'a [Node],
}

impl<'a> Nodes<'a> {
    pub(crate) fn all(rows: &'a Rows) -> Nodes<'a>
        ensures { left_of result ≡ nodes_of rows.now }
    {
        Nodes {
            piece: &[],
            older: &rows.older,
            last: &rows.last,
        }
    }

    /// Goes on to a piece that has a node, where there is one.
    fn turn(&mut self)
        ensures left { left_of self.new ≡ left_of self.old }
        ensures done { self.new.piece.now ≡ [] → left_of self.old ≡ [] }
    {
        while self.piece.is_empty() {
            let [next, others @ ..] = self.older else {
                self.piece = self.last;
                self.last = &[];
                return;
            };
            self.piece = next;
            self.older = others;
        }
    }
}

impl<'a> Iterator for Nodes<'a> {
    type Item = &'a Node;

    ghost next_gives = { YieldsFirstRef left_of };

    ghost remaining = { item_count left_of };

    fn next(&mut self) -> Option<&'a Node> {
        self.turn();
        let (first, others) = self.piece.split_first()?;
        self.piece = others;
        Some(first)
    }
}
