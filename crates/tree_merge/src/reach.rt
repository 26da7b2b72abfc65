//! How many steps above each revision are kept.
ghost use Rattle.std.specs.Prelude.{◌≡◌, ℕ, not, ◌&&◌, if◌then◌else◌, IfOk, length, map};
ghost use Rattle.std.specs.BTreeSet.{contains};
ghost use Rattle.model.specs.Map.{entries};
ghost use Rattle.model.specs.Revision.{Rev, rev_cmp};
ghost use Rattle.model.specs.Tree.{is_leaf as is_known_leaf};
ghost use Rattle.revision_tree.specs.Nodes.{IsListOf, entries_of, tree_of};
ghost use Rattle.tree_merge.specs.Reach.{first_mark, reach, raised};
ghost use Rattle.tree_merge.specs.Seen.{AreSeen};

use revision_id::RevId;
use revision_tree::{Node, RevTree, place_among};
use std::alloc::{AllocError, Global};
use std::collections::BTreeSet;

/// Of each revision how many are kept from it up, itself among them: `limit` from a leaf that isn't named, one fewer with
/// each step up, and the most of what several leaves give.
pub(crate) fn marks(
    alloc: Global,
    tree: &RevTree,
    nodes: &[Node],
    named: &[RevId],
    limit: u32,
) -> Result<Vec<u32>, AllocError>
    requires { IsListOf nodes.now tree.now }
    ensures { IfOk result (λ marks. marks.items ≡ map (λ e. reach (first_mark limit named.now tree.now) (entries tree.now) e.0) (entries tree.now)) }
{
    let mut marks = first_marks(alloc, tree, nodes, named, limit)?;
    carry(nodes, &mut marks);
    Ok(marks)
}

fn first_marks(
    alloc: Global,
    tree: &RevTree,
    nodes: &[Node],
    named: &[RevId],
    limit: u32,
) -> Result<Vec<u32>, AllocError>
    requires { IsListOf nodes.now tree.now }
    ensures { IfOk result (λ marks. marks.items ≡ map (λ e. first_mark limit named.now tree.now e.0) (entries tree.now)) }
{
    let named = set_of(alloc, named)?;
    let mut marks = Vec::new(alloc);
    for node in nodes {
        marks.push(mark_of(tree, &named, limit, node.rev))?;
    }
    Ok(marks)
}

fn set_of(alloc: Global, revs: &[RevId]) -> Result<BTreeSet<RevId>, AllocError>
    ensures { IfOk result (λ set. AreSeen set revs.now) }
{
    revs.iter().copied().collect(alloc)
}

fn mark_of(tree: &RevTree, named: &BTreeSet<RevId>, limit: u32, rev: RevId) -> u32
    ensures { result ≡ (if is_known_leaf tree.now rev && not (contains rev_cmp named.now rev) then limit else 0) }
{
    if !tree.is_leaf(rev) {
        return 0;
    }
    if named.contains(&rev) {
        return 0;
    }
    limit
}

/// Carries the marks up, from the youngest on.
fn carry(nodes: &[Node], marks: &mut [u32])
    requires listed { IsListOf nodes.now (tree_of nodes.now) }
    requires long { length marks.old ≡ length nodes.now }
    ensures { (g : Rev → ℕ) → marks.old ≡ map (λ e. g e.0) (entries_of nodes.now) → marks.new ≡ map (λ e. reach g (entries_of nodes.now) e.0) (entries_of nodes.now) }
{
    for place in (0..nodes.len()).rev() {
        let mark = marks[place].saturating_sub(1);
        raise(nodes, marks, nodes[place].parent, mark);
    }
}

/// Raises the mark of a parent.
fn raise(nodes: &[Node], marks: &mut [u32], parent: Option<RevId>, mark: u32)
    requires listed { IsListOf nodes.now (tree_of nodes.now) }
    requires long { length marks.old ≡ length nodes.now }
    ensures { (g : Rev → ℕ) → marks.old ≡ map (λ e. g e.0) (entries_of nodes.now) → marks.new ≡ map (λ e. raised parent mark g e.0) (entries_of nodes.now) }
{
    let Some(parent) = parent else {
        return;
    };
    if let Some(place) = place_among(nodes, parent) {
        marks[place] = marks[place].max(mark);
    }
}
