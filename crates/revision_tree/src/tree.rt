//! The tree.
ghost use Rattle.std.specs.Prelude.{◌≡◌, ◌↔◌, ◌≤◌, Bool, Some, true, IfOk, IfSome, All, length, min, option_map, option_copied, unwrap_or};
ghost use Rattle.std.specs.Arc.{arc_value};
ghost use Rattle.model.specs.Map.{empty, entries};
ghost use Rattle.model.specs.Body.{Body as BodyText, IsBody};
ghost use Rattle.model.specs.Revision.{Rev, IsRev};
ghost use Rattle.model.specs.Tree.{Tree, IsTree, IsInRange, knows as is_known, IsNear, ancestor, has_child as has_known_child, parent_of as known_parent, is_leaf as is_known_leaf, among, body_of as kept_body, is_deleted as is_known_deleted, path_of as path_to, leaves as ranked, winner as winning, revs_of};
ghost use Rattle.model.specs.TreeChange.{IsPath, agrees as is_agreed, grafted as grafting, stem as stemming, strip as stripping};
ghost use Rattle.revision_tree.specs.Nodes.{IsListOf, IsNodes, entries_of, tree_of};
ghost use Rattle.revision_tree.specs.Growth.{AreGround};
ghost use Rattle.revision_tree.specs.Notes.{AreNotes, HasOneLeaf};
ghost use Rattle.revision_tree.specs.Rows.{AreFilled, IsRows, lists_of, nodes_of};
ghost use Rattle.revision_tree.specs.Walk.{left_of};

mod stems;

use crate::decide::mark_tree;
use crate::growth::grow;
use crate::leaf::{Leaf, all_of, first_of, has_one_leaf, leaves_of, winner_of};
use crate::marks::mark;
use crate::members::noted_with;
use crate::node::Node;
use crate::notes::{Notes, notes_of};
use crate::rows::Rows;
use crate::search::{node_of, parent_in, path_from};
use crate::strip::stripped;
use crate::walk::Nodes;
use crate::whole::{all, count, first, last, pieces_of};
use json_profile::Body;
use revision_id::RevId;
use std::alloc::{AllocError, Global};
use std::marker::Model;
use std::sync::Arc;

/// The revisions of a document: at least one, each with its parent where that is known, and each leaf with its body.
pub struct RevTree {
    rows: Rows,
    notes: Notes,
}

impl Drop for RevTree {
    fn drop(self) {
        let RevTree { rows: _, notes: _ } = self;
    }
}

impl Model for RevTree {
    ghost use Rattle.model.specs.Tree.{Tree, coded_tree};

    ghost Value = { Tree };

    ghost coded = { coded_tree };

    ghost use Rattle.revision_tree.specs.Nodes.{tree_of};
    ghost use Rattle.revision_tree.specs.Rows.{nodes_of};
    ghost use Rattle.revision_tree.specs.Notes.{IsKept};

    ghost view = { λ t. tree_of (nodes_of t.rows) };

    ghost invariant = { λ t. IsKept t.rows t.notes };
}

impl RevTree {
    /// The tree that has just these revisions, which ascend.
    pub fn from_nodes(alloc: Global, nodes: Vec<Node>) -> Result<RevTree, AllocError>
        requires { (t : Tree) × IsListOf nodes.items t }
        ensures { (t : Tree) → entries t ≡ entries_of nodes.items → IfOk result (λ made. made ≡ t) }
    {
        let mut nodes = nodes;
        mark(&mut nodes);
        RevTree::from_marked(alloc, nodes)
    }

    /// The tree of a list, where it is one that a tree has: the revisions ascend, the parent of each that has one is
    /// among them, one generation older, and those that are parents of none have bodies. Of another list nothing.
    pub fn from_list(alloc: Global, nodes: Vec<Node>) -> Result<Option<RevTree>, AllocError>
        ensures listed { (t : Tree) → IfOk result (λ made. (made ≡ Some t) ↔ IsListOf nodes.items t) }
    {
        let mut nodes = nodes;
        if !mark_tree(&mut nodes) {
            return Ok(None);
        }
        Ok(Some(RevTree::from_marked(alloc, nodes)?))
    }

    /// The tree of nodes of which the parents are marked.
    fn from_marked(alloc: Global, nodes: Vec<Node>) -> Result<RevTree, AllocError>
        requires { IsNodes nodes.items }
        ensures { IfOk result (λ made. made ≡ tree_of nodes.items) }
    {
        let one_leaf = has_one_leaf(&nodes);
        let rows = pieces_of(alloc, nodes)?;
        let notes = notes_of(alloc, &rows, one_leaf)?;
        Ok(RevTree { rows, notes })
    }

    /// The tree, or the empty one, with the members of a path that agrees with it, each next one the parent of the one
    /// before, and with the body and the flag for the newest where it has no body. Shares what is apart from these.
    pub fn grafted(
        alloc: Global,
        tree: Option<&RevTree>,
        path: &[RevId],
        body: Arc<Body>,
        deleted: bool,
    ) -> Result<RevTree, AllocError>
        requires path { IsPath path.now }
        requires revs { All IsRev path.now }
        requires body { IsBody (arc_value body) }
        requires agrees { is_agreed (unwrap_or (option_copied tree) empty) path.now ≡ true }
        ensures { IfOk result (λ t. t ≡ grafting path.now (arc_value body) deleted (unwrap_or (option_copied tree.entry) empty)) }
    {
        let one_leaf = keeps_one_leaf(tree, path);
        let mut rows = ground(alloc, tree, path.len())?;
        grow(alloc, &mut rows, path, body, deleted)?;
        let notes = notes_with(alloc, tree, &rows, path, deleted, one_leaf)?;
        Ok(RevTree { rows, notes })
    }

    /// The tree with the bodies of its leaves alone.
    pub fn stripped(&self, alloc: Global) -> Result<RevTree, AllocError>
        ensures { IfOk result (λ t. t ≡ stripping self.now) }
    {
        let notes = self.notes.share(alloc)?;
        let rows = stripped(alloc, &self.rows)?;
        Ok(RevTree { rows, notes })
    }

    /// The same tree, which shares what it can.
    pub fn share(&self, alloc: Global) -> Result<RevTree, AllocError>
        ensures { IfOk result (λ t. t ≡ self.now) }
    {
        let notes = self.notes.share(alloc)?;
        let rows = self.rows.share(alloc)?;
        Ok(RevTree { rows, notes })
    }

    /// The revisions, in ascending order.
    pub fn nodes(&self) -> Nodes<'_>
        ensures { IsListOf (left_of result) self.now }
    {
        Nodes::all(&self.rows)
    }

    /// The same again in a list.
    pub fn listed(&self, alloc: Global) -> Result<Vec<Node>, AllocError>
        ensures { IfOk result (λ nodes. IsListOf nodes.items self.now) }
    {
        all(alloc, &self.rows)
    }

    /// How many revisions there are, up to the greatest number.
    pub fn count(&self) -> usize
        ensures { result ≡ min (length (entries self.now)) usize.MAX }
    {
        count(&self.rows)
    }

    /// A revision that none is older than.
    pub fn oldest(&self) -> RevId
        ensures tree { IsTree self.now }
        ensures known { is_known self.now result ≡ true }
        ensures oldest { (r : Rev) → is_known self.now r ≡ true → result.generation ≤ r.generation }
    {
        first(&self.rows)
    }

    /// A revision that none is younger than.
    pub fn newest(&self) -> RevId
        ensures known { is_known self.now result ≡ true }
        ensures newest { (r : Rev) → is_known self.now r ≡ true → r.generation ≤ result.generation }
    {
        last(&self.rows)
    }

    /// Whether it is a revision of the tree.
    pub fn knows(&self, rev: RevId) -> bool
        ensures { result ≡ is_known self.now rev }
    {
        node_of(&self.rows, rev).is_some()
    }

    /// Whether it is known, and the parent of none.
    pub fn is_leaf(&self, rev: RevId) -> bool
        ensures { result ≡ is_known_leaf self.now rev }
    {
        node_of(&self.rows, rev).is_some_and(|node| !node.inner)
    }

    /// The parent of a revision, where both are known.
    pub fn parent_of(&self, rev: RevId) -> Option<RevId>
        ensures { result ≡ known_parent self.now rev }
    {
        parent_in(&self.rows, rev)
    }

    /// Whether it is known, and a deletion.
    pub fn is_deleted(&self, rev: RevId) -> bool
        ensures { result ≡ is_known_deleted self.now rev }
    {
        node_of(&self.rows, rev).is_some_and(|node| node.deleted)
    }

    /// The first of the leaves.
    pub fn winner(&self) -> Leaf
        ensures { winning self.now ≡ Some (record { deleted = result.deleted; rev = result.rev }) }
    {
        match &self.notes {
            Notes::Many(noted) => first_of(noted),
            _ => winner_of(&self.rows),
        }
    }

    /// The leaves: the live ones before the deleted ones, and of each the greatest first.
    pub fn leaves(&self, alloc: Global) -> Result<Vec<RevId>, AllocError>
        ensures { IfOk result (λ revs. revs.items ≡ revs_of (ranked self.now)) }
    {
        match &self.notes {
            Notes::Many(noted) => all_of(alloc, noted),
            _ => leaves_of(alloc, &self.rows),
        }
    }

    /// The known path of a revision, newest first, and nothing of one that isn't known.
    pub fn path_of(&self, alloc: Global, rev: RevId) -> Result<Vec<RevId>, AllocError>
        ensures { IfOk result (λ path. path.items ≡ path_to self.now rev) }
    {
        if !self.knows(rev) {
            return Ok(Vec::new(alloc));
        }
        path_from(alloc, &self.rows, rev)
    }

    /// The body of a revision, where it is kept.
    pub fn body_of(&self, rev: RevId) -> Option<&Arc<Body>>
        ensures { option_map (λ b. arc_value b.now) result ≡ kept_body self.now rev }
    {
        node_of(&self.rows, rev)?.body.as_ref()
    }
}

/// Whether it is known that a graft of the path leaves one leaf: that of the tree, or the newest of the path in its place.
fn keeps_one_leaf(tree: Option<&RevTree>, path: &[RevId]) -> bool
    requires path { IsPath path.now }
    requires agrees { is_agreed (unwrap_or (option_copied tree) empty) path.now ≡ true }
    ensures { result ≡ true → (body : BodyText) (deleted : Bool) → HasOneLeaf (grafting path.now body deleted (unwrap_or (option_copied tree.entry) empty)) }
{
    let Some(tree) = tree else {
        return true;
    };
    let Notes::OneLeaf = &tree.notes else {
        return false;
    };
    let [newest, ..] = path else {
        return false;
    };
    if tree.knows(*newest) {
        return true;
    }
    has_leaf(tree, path)
}

/// Whether one of these revisions is a leaf.
fn has_leaf(tree: &RevTree, revs: &[RevId]) -> bool
    ensures { result ≡ true → (l : Rev) × (is_known_leaf tree.now l ≡ true) × (among revs.now l ≡ true) }
{
    for rev in revs {
        if tree.is_leaf(*rev) {
            return true;
        }
    }
    false
}

/// What is noted of a tree, or the empty one, once a path is grafted onto it. The rows are those after the graft.
fn notes_with(
    alloc: Global,
    tree: Option<&RevTree>,
    rows: &Rows,
    path: &[RevId],
    deleted: bool,
    one_leaf: bool,
) -> Result<Notes, AllocError>
    requires rows { IsRows rows.now }
    requires path { IsPath path.now }
    requires agrees { is_agreed (unwrap_or (option_copied tree) empty) path.now ≡ true }
    requires one { one_leaf ≡ true → HasOneLeaf (tree_of (nodes_of rows.now)) }
    requires grown { (body : BodyText) × (tree_of (nodes_of rows.now) ≡ grafting path.now body deleted (unwrap_or (option_copied tree) empty)) }
    ensures { IfOk result (λ n. AreNotes (tree_of (nodes_of rows.now)) n) }
{
    if one_leaf {
        return Ok(Notes::OneLeaf);
    }
    let Some(tree) = tree else {
        return notes_of(alloc, rows, false);
    };
    let Notes::Many(noted) = &tree.notes else {
        return notes_of(alloc, rows, false);
    };
    let noted = noted.share()?;
    let grown = noted_with(tree, noted, rows, path, deleted)?;
    Ok(Notes::Many(Box::new(alloc, grown)?))
}

/// The nodes of a tree, shared, and none of no tree, with room for so many.
fn ground(alloc: Global, tree: Option<&RevTree>, room: usize) -> Result<Rows, AllocError>
    ensures ground { IfOk result (λ r. AreGround (nodes_of r)) }
    ensures tree { IfOk result (λ r. tree_of (nodes_of r) ≡ unwrap_or (option_copied tree.entry) empty) }
    ensures range { IfOk result (λ r. IsInRange (tree_of (nodes_of r))) }
    ensures filled { IfOk result (λ r. AreFilled (lists_of r.older.items)) }
{
    match tree {
        Some(tree) => tree.rows.share(alloc),
        None => Rows::with_room(alloc, room),
    }
}
