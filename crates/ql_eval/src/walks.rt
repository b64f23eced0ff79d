//! Walks over the trees under a manifest.

ghost use Rattle.std.specs.Prelude.{◌≡◌, ℕ, IfErr, IfOk, List, OnOk};
ghost use Rattle.tree_node.specs.NodeRefs.{bindings_of, number_of};
ghost use Rattle.tree_node.specs.Outcomes.{Outcome};
ghost use Rattle.tree_node.specs.Shelves.{Stays};
ghost use Rattle.tree_walk.specs.Choices.{AreThose, IsCount};
ghost use Rattle.tree_walk.specs.Fetches.{cause_of, counted_up};
ghost use Rattle.tree_walk.specs.Given.{IsWalk, These};
ghost use Rattle.tree_walk.specs.Ranges.{IsIn, range_of};
ghost use Rattle.tree_walk.specs.Reasons.{HasReason};
ghost use Rattle.tree_walk.specs.WalksGiven.{HasGiven};
ghost use Rattle.tree_walk.specs.Walks.{IsEntryIn};
ghost use Rattle.osm_keys.specs.Manifests.{top_among};
ghost use Rattle.osm_keys.specs.Publications.{IsPublication, Publication};
ghost use Rattle.ql_eval.specs.Absences.{IsSound};
ghost use Rattle.ql_eval.specs.internal.Objects.{NeverAbsent};
ghost use Rattle.ql_eval.specs.Openings.{IsUnder};
ghost use Rattle.ql_eval.specs.Questions.{Counted, Listed, NeedsAsk};
ghost use Rattle.tree_walk.specs.Uses.{nodes_around};

use osm_keys::Manifest;
use std::alloc::Global;
use tree_node::{Digest, Item, Shelf, Tree};
use tree_walk::{KeyRange, Tally, WalkFault, count, range_within};

/// The entries of a tree in a range of keys, refused as memory is where there are more than so many. The shelf is told first
/// that it will be asked for them.
pub(crate) fn entries_in<'a, S: Shelf<'a>>(
    alloc: Global,
    shelf: &mut S,
    manifest: &Manifest,
    tree: Tree,
    keys: &KeyRange<'_>,
    most: usize,
    tally: &mut Tally,
) -> Result<Vec<Item<'a>>, WalkFault>
    requires { IsIn (range_of keys.now) keys.now.lo.now }
    ensures stays { Stays S.is_fixed (S.holds shelf.old) (S.holds shelf.new) }
    ensures grows { (bytes : List ℕ) → S.used shelf.old bytes → S.used shelf.new bytes }
    ensures calls { tally.new.calls ≡ counted_up tally.old.calls 1 }
    ensures gives { IfOk result (λ found. IsWalk
        (nodes_around S.holds S.used shelf.old shelf.new)
        tally.old.fetches tally.new.fetches
        tree (top_among manifest.now.tops tree) (range_of keys.now)
        (These (bindings_of found.items))) }
    ensures told { IfErr result
        (HasReason (number_of tree) (top_among manifest.now.tops tree)
        (S.holds shelf.new) (S.used shelf.new)) }
    ensures answer { (p : Publication) → IsPublication p → IsUnder p manifest.now
        → Outcome cause_of (λ found. AreThose (IsEntryIn (range_of keys.now)) (p.entries tree)
        (bindings_of found.items))
        (NeedsAsk p (Listed tree (range_of keys.now)))
        (nodes_around S.holds S.used shelf.old shelf.new) result }
{
    shelf.announce(top_of(manifest, tree), keys.lo, keys.hi);
    listed_in(alloc, shelf, manifest, tree, keys, most, tally)
}

/// The entries of a tree in a range of keys, refused as memory is where there are more than so many.
fn listed_in<'a, S: Shelf<'a>>(
    alloc: Global,
    shelf: &mut S,
    manifest: &Manifest,
    tree: Tree,
    keys: &KeyRange<'_>,
    most: usize,
    tally: &mut Tally,
) -> Result<Vec<Item<'a>>, WalkFault>
    requires { IsIn (range_of keys.now) keys.now.lo.now }
    ensures stays { Stays S.is_fixed (S.holds shelf.old) (S.holds shelf.new) }
    ensures grows { (bytes : List ℕ) → S.used shelf.old bytes → S.used shelf.new bytes }
    ensures calls { tally.new.calls ≡ counted_up tally.old.calls 1 }
    ensures gives { IfOk result (λ found. IsWalk
        (nodes_around S.holds S.used shelf.old shelf.new)
        tally.old.fetches tally.new.fetches
        tree (top_among manifest.now.tops tree) (range_of keys.now)
        (These (bindings_of found.items))) }
    ensures told { IfErr result
        (HasReason (number_of tree) (top_among manifest.now.tops tree)
        (S.holds shelf.new) (S.used shelf.new)) }
    ensures answer { (p : Publication) → IsPublication p → IsUnder p manifest.now
        → Outcome cause_of (λ found. AreThose (IsEntryIn (range_of keys.now)) (p.entries tree)
        (bindings_of found.items))
        (NeedsAsk p (Listed tree (range_of keys.now)))
        (nodes_around S.holds S.used shelf.old shelf.new) result }
{
    range_within(
        alloc,
        shelf,
        top_of(manifest, tree),
        tree,
        keys,
        most,
        tally,
    )
}

/// The number of entries of a tree in a range of keys.
pub(crate) fn count_in<'a, S: Shelf<'a>>(
    alloc: Global,
    shelf: &mut S,
    manifest: &Manifest,
    tree: Tree,
    keys: &KeyRange<'_>,
    tally: &mut Tally,
) -> Result<u64, WalkFault>
    requires { IsIn (range_of keys.now) keys.now.lo.now }
    ensures stays { Stays S.is_fixed (S.holds shelf.old) (S.holds shelf.new) }
    ensures grows { (bytes : List ℕ) → S.used shelf.old bytes → S.used shelf.new bytes }
    ensures walked { OnOk result (HasGiven (top_among manifest.now.tops) (IsSound NeverAbsent)
        (nodes_around S.holds S.used shelf.old shelf.new)
        tally.old.calls tally.new.calls tally.old.fetches tally.new.fetches) }
    ensures told { IfErr result
        (HasReason (number_of tree) (top_among manifest.now.tops tree)
        (S.holds shelf.new) (S.used shelf.new)) }
    ensures answer { (p : Publication) → IsPublication p → IsUnder p manifest.now
        → Outcome cause_of
        (λ number. IsCount (IsEntryIn (range_of keys.now)) (p.entries tree) number)
        (NeedsAsk p (Counted tree (range_of keys.now)))
        (nodes_around S.holds S.used shelf.old shelf.new) result }
{
    count(alloc, shelf, top_of(manifest, tree), tree, keys, tally)
}

/// The digest of a tree's top.
pub(crate) fn top_of(manifest: &Manifest, tree: Tree) -> &Digest
    ensures { result.now.0 ≡ top_among manifest.now.tops tree }
{
    match tree {
        Tree::Objects => &manifest.tops[0],
        Tree::Tags => &manifest.tops[1],
        Tree::Cells => &manifest.tops[2],
        Tree::Backs => &manifest.tops[3],
    }
}
