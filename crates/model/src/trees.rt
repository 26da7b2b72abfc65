//! Laws of revision trees.
ghost use Rattle.std.specs.Prelude.{◌≡◌, ◌≢◌, ◌↔◌, ◌⊎◌, ℕ, ◌+◌, ◌<◌, ◌≤◌, Bool, true, false, not, ◌&&◌, List, [], ◌∷◌, ◌++◌, filter, All, AllPairs, Contains, slice_get, Option, Some, None, if◌then◌else◌};
ghost use Rattle.model.specs.Map.{IsRising, empty};
ghost use Rattle.model.specs.Body.{Body, IsBody, same_body};
ghost use Rattle.model.specs.Revision.{Rev, IsRev};
ghost use Rattle.model.specs.Tree.{Tree, Leaf, IsForest, IsTree, IsInRange, IsLeafOf, IsGreatestLeaf, IsNear, knows, parent_of, body_of, is_deleted, has_child, is_leaf, among, leaves, ranks, winner, ancestor, path_of};
ghost use Rattle.model.specs.TreeChange.{IsPath, IsUnion, Contradicts, IsRestriction, IsHeld, graft, stem, strip, cut, removed_leaves};
ghost use Rattle.model.specs.Database.{same_tree};

/// Two trees are equal if they know the same revisions, with the same parents, bodies and flags.
pub fn trees_that_answer_alike_are_equal()
    ensures equal { (s t : Tree) → ((r : Rev) → knows s r ≡ knows t r) → ((r : Rev) → parent_of s r ≡ parent_of t r)
        → ((r : Rev) → body_of s r ≡ body_of t r) → ((r : Rev) → is_deleted s r ≡ is_deleted t r) → s ≡ t }
{}

/// A leaf is a known revision that is the parent of none.
pub fn a_leaf_is_parent_of_none()
    ensures inner { (t : Tree) (r : Rev) → (has_child t r ≡ true) ↔ ((c : Rev) × (parent_of t c ≡ Some r)) }
    ensures leaf { (t : Tree) (r : Rev)
        → (is_leaf t r ≡ true) ↔ ((knows t r ≡ true) × ((c : Rev) → parent_of t c ≢ Some r)) }
{}

/// The tests of bodies and of trees say whether they are equal.
pub fn tests_decide_equality()
    ensures body { (a b : Body) → (same_body a b ≡ true) ↔ (a ≡ b) }
    ensures tree { (s t : Tree) → (same_tree s t ≡ true) ↔ (s ≡ t) }
{}

/// The winner is the greatest leaf: one that is not deleted before one that is, and then the greater revision.
/// A document's tree has one.
pub fn winner_is_the_greatest_leaf()
    ensures greatest { (t : Tree) (w : Leaf) → (winner t ≡ Some w) ↔ IsGreatestLeaf t w }
    ensures some { (t : Tree) → IsTree t → (w : Leaf) × (winner t ≡ Some w) }
{}

/// The list of leaves has just the leaves, each once and in the winner's order, and no other list does.
pub fn leaves_are_listed_in_order()
    ensures members { (t : Tree) (l : Leaf) → Contains (leaves t) l ↔ IsLeafOf t l }
    ensures order { (t : Tree) → IsRising ranks (leaves t) }
    ensures only { (t : Tree) (ls : List Leaf) → IsRising ranks ls → ((l : Leaf) → Contains ls l ↔ IsLeafOf t l)
        → ls ≡ leaves t }
{}

/// The path of a known revision is the list of its ancestors, itself first. Of another one it is empty.
pub fn path_lists_the_ancestors()
    ensures known { (t : Tree) (r : Rev) (n : ℕ) → IsForest t → knows t r ≡ true
        → slice_get (path_of t r) n ≡ ancestor t n (Some r) }
    ensures unknown { (t : Tree) (r : Rev) → knows t r ≡ false → path_of t r ≡ [] }
{}

/// A graft is the one union of a tree and a path. It is refused exactly where the path contradicts a known parent.
pub fn graft_is_a_union()
    ensures union { (newest : Rev) (older : List Rev) (body : Body) (deleted : Bool) (t u : Tree) → IsPath (newest ∷ older)
        → (graft (newest ∷ older) body deleted t ≡ Some u) ↔ IsUnion newest older body deleted t u }
    ensures refused { (path : List Rev) (body : Body) (deleted : Bool) (t : Tree)
        → (graft path body deleted t ≡ None) ↔ Contradicts t path }
{}

/// What a stem or a cut keeps is found from child to parent: a leaf, or a step above what is kept.
pub fn kept_revisions_lie_above_kept_ones()
    ensures near { (limit : ℕ) (t : Tree) (r : Rev)
        → IsNear (limit + 1) t r ↔ ((is_leaf t r ≡ true) ⊎ ((c : Rev) × (parent_of t c ≡ Some r) × IsNear limit t c)) }
    ensures held { (named : List Rev) (t : Tree) (r : Rev)
        → IsHeld named t r
        ↔ (((is_leaf t r ≡ true) × (among named r ≡ false)) ⊎ ((c : Rev) × (parent_of t c ≡ Some r) × IsHeld named t c)) }
{}

/// A stem keeps just the revisions fewer steps than its limit above some leaf. So it keeps all leaves, and everything
/// where no generation is above its limit.
pub fn stem_keeps_what_is_near_a_leaf()
    ensures kept { (limit : ℕ) (t u : Tree) → IsForest t → (stem limit t ≡ u) ↔ IsRestriction (IsNear limit t) t u }
    ensures leaves { (limit : ℕ) (t : Tree) → 0 < limit → IsForest t → leaves (stem limit t) ≡ leaves t }
    ensures whole { (limit : ℕ) (t : Tree) → IsForest t → ((r : Rev) → knows t r ≡ true → r.generation ≤ limit)
        → stem limit t ≡ t }
{}

/// A cut keeps just the leaves that aren't named and the revisions above them. So the named leaves go, nothing is left
/// exactly where each leaf is named, and everything where none is.
pub fn cut_keeps_what_other_leaves_hold()
    ensures kept { (named : List Rev) (t u : Tree) → IsForest t
        → (cut named t ≡ Some u) ↔ (IsRestriction (IsHeld named t) t u × ((r : Rev) × (knows u r ≡ true))) }
    ensures none { (named : List Rev) (t : Tree)
        → (cut named t ≡ None) ↔ ((r : Rev) → is_leaf t r ≡ true → among named r ≡ true) }
    ensures leaves { (named : List Rev) (t u : Tree) → IsForest t → cut named t ≡ Some u
        → leaves u ≡ filter (λ l. not (among named l.rev)) (leaves t) }
    ensures whole { (named : List Rev) (t : Tree) → IsTree t → ((r : Rev) → is_leaf t r ≡ true → among named r ≡ false)
        → cut named t ≡ Some t }
{}

/// The leaves that a cut removes are the named leaves, each once, in the order in which they are first named.
pub fn removed_leaves_are_the_named_leaves()
    ensures members { (named : List Rev) (t : Tree) (r : Rev)
        → Contains (removed_leaves named t) r ↔ (Contains named r × (is_leaf t r ≡ true)) }
    ensures once { (named : List Rev) (t : Tree) → AllPairs (λ a b. a ≢ b) (removed_leaves named t) }
    ensures next { (named : List Rev) (t : Tree) (r : Rev) → removed_leaves (named ++ r ∷ []) t
        ≡ (if is_leaf t r && not (among named r) then removed_leaves named t ++ r ∷ [] else removed_leaves named t) }
{}

/// A strip drops the bodies of the revisions that are no leaves, and nothing else. A second strip changes nothing.
pub fn strip_drops_the_bodies_above_leaves()
    ensures known { (t : Tree) (r : Rev) → knows (strip t) r ≡ knows t r }
    ensures parents { (t : Tree) (r : Rev) → parent_of (strip t) r ≡ parent_of t r }
    ensures flags { (t : Tree) (r : Rev) → is_deleted (strip t) r ≡ is_deleted t r }
    ensures bodies { (t : Tree) (r : Rev) → body_of (strip t) r ≡ (if is_leaf t r then body_of t r else None) }
    ensures leaves { (t : Tree) → leaves (strip t) ≡ leaves t }
    ensures twice { (t : Tree) → strip (strip t) ≡ strip t }
{}

/// A graft into a document's tree or the empty one leaves a document's tree, and so do stems, cuts and strips of one.
pub fn changed_trees_are_trees()
    ensures empty { IsForest empty }
    ensures graft { (path : List Rev) (body : Body) (deleted : Bool) (t u : Tree) → IsPath path → IsForest t
        → graft path body deleted t ≡ Some u → IsTree u }
    ensures stem { (limit : ℕ) (t : Tree) → 0 < limit → IsTree t → IsTree (stem limit t) }
    ensures cut { (named : List Rev) (t u : Tree) → IsForest t → cut named t ≡ Some u → IsTree u }
    ensures strip { (t : Tree) → IsTree t → IsTree (strip t) }
{}

/// Identities and bodies in range stay so, where those of a graft are.
pub fn changed_trees_stay_in_range()
    ensures empty { IsInRange empty }
    ensures graft { (path : List Rev) (body : Body) (deleted : Bool) (t u : Tree) → IsPath path → All IsRev path → IsBody body
        → IsInRange t → graft path body deleted t ≡ Some u → IsInRange u }
    ensures stem { (limit : ℕ) (t : Tree) → IsForest t → IsInRange t → IsInRange (stem limit t) }
    ensures cut { (named : List Rev) (t u : Tree) → IsForest t → IsInRange t → cut named t ≡ Some u → IsInRange u }
    ensures strip { (t : Tree) → IsInRange t → IsInRange (strip t) }
{}
