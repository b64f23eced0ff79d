//! The way down a tree, level by level.

ghost use Rattle.std.specs.Prelude.{[], ◌≡◌, ◌≤◌, ◌++◌, ◌-◌, ◌∷◌, ℕ, suc, None, List, OnOk, IfErr, IfOk, Option, map, true};
ghost use Rattle.tree_node.specs.NodeRefs.{number_of};
ghost use Rattle.tree_node.specs.Nodes.{AreRisingFrom, Binding, Link, Node, keys_of};
ghost use Rattle.tree_node.specs.Outcomes.{Outcome};
ghost use Rattle.tree_node.specs.Shelves.{HasNone, Stays};
ghost use Rattle.tree_node.specs.Trees.{Shape, levels};
ghost use Rattle.tree_walk.specs.Fetches.{Fetches, IsNodeText, cause_of, counted_up};
ghost use Rattle.tree_walk.specs.internal.Accounts.{GathersAll, GathersBelow, GathersClosed, GathersEntries};
ghost use Rattle.tree_walk.specs.internal.Openings.{IsClosedChild, IsOpened, IsOpenedIn, IsReached};
ghost use Rattle.tree_walk.specs.internal.Pendings.{AreInOrder, AreStated, AreWanted, FetchesBelow, FetchesLevel, IsBetweenLevels, IsOfLevel, IsOneOf, spots_of};
ghost use Rattle.tree_walk.specs.internal.Gatherings.{GathersFrom, ReadsLevel};
ghost use Rattle.tree_walk.specs.Given.{entries_of_all, wanted_of};
ghost use Rattle.tree_walk.specs.Reasons.{HasReason, Top};
ghost use Rattle.tree_walk.specs.Spans.{children_of_all};
ghost use Rattle.tree_walk.specs.Ranges.{IsIn, range_of};
ghost use Rattle.tree_walk.specs.Uses.{nodes_around};
ghost use Rattle.tree_walk.specs.Walks.{IsTopOf};

use crate::fault::WalkFault;
use crate::gather::Gather;
use crate::key_range::KeyRange;
use crate::pending::{AllPending, Pending, pick};
use crate::tally::Tally;
use crate::visit::{open, open_inner, open_leaf};
use smallvec::SmallVec;
use std::alloc::{AllocError, Global};
use tree_node::{Digest, Entries, NodeRef, Shelf, Tree};

/// What stays the same on the way down.
#[derive(Clone, Copy)]
struct Way<'r> {
    alloc: Global,
    tree: Tree,
    range: &'r KeyRange<'r>,
}

/// Gathers the entries in the range, or what stays closed with them, below the node with the digest `top`.
pub(crate) fn gather<'a, S: Shelf<'a>, G: Gather<'a>>(
    alloc: Global,
    shelf: &mut S,
    top: &Digest,
    tree: Tree,
    range: &KeyRange<'_>,
    tally: &mut Tally,
    gathered: &mut G,
) -> Result<(), WalkFault>
    requires { IsIn (range_of range.now) range.now.lo.now }
    ensures stays { Stays S.is_fixed (S.holds shelf.old) (S.holds shelf.new) }
    ensures grows { (bytes : List ℕ) → S.used shelf.old bytes → S.used shelf.new bytes }
    ensures calls { tally.new.calls ≡ counted_up tally.old.calls 1 }
    ensures fetches { Fetches result (nodes_around S.holds S.used shelf.old shelf.new)
        tally.old.fetches tally.new.fetches }
    ensures told { IfErr result
        (HasReason (number_of tree) top.now.0 (S.holds shelf.new) (S.used shelf.new)) }
    ensures none { S.is_fixed ≡ true → HasNone (S.holds shelf.new) top.now.0
        → result ≡ Err WalkFault.Missing }
    ensures gives { OnOk result (GathersFrom G.gathers
        (IsClosedChild G.closing (range_of range.now)) IsNodeText
        (nodes_around S.holds S.used shelf.old shelf.new) tally.old.fetches tally.new.fetches
        (number_of tree) (range_of range.now) (Top top.now.0 ∷ []) gathered.old gathered.new) }
    ensures answer { (shape : Shape) (entries : List Binding)
        → IsTopOf shape (number_of tree) entries top.now.0
        → Outcome cause_of
        (λ _. GathersAll G.gathers G.closing (range_of range.now) entries gathered.old gathered.new)
        (IsOpened G.closing (range_of range.now) (levels shape (number_of tree) entries))
        (nodes_around S.holds S.used shelf.old shelf.new) result }
{
    tally.count_call();
    match open(shelf, top, tree, tally)? {
        NodeRef::Leaf { tree: _, entries } => {
            take(entries, range, gathered)?;
            Ok(())
        }
        NodeRef::Inner {
            tree: _,
            level,
            children,
        } => {
            let mut pending: AllPending<'a> = SmallVec::new(alloc);
            pick(children, None, range, &mut pending, gathered)?;
            let way = Way { alloc, tree, range };
            descend(&way, shelf, level - 1, pending, tally, gathered)
        }
    }
}

/// Fetches the pending nodes of this level and what is opened below them, level by level.
fn descend<'a, S: Shelf<'a>, G: Gather<'a>>(
    way: &Way<'_>,
    shelf: &mut S,
    level: u8,
    pending: AllPending<'a>,
    tally: &mut Tally,
    gathered: &mut G,
) -> Result<(), WalkFault>
    requires some { IsIn (range_of way.now.range.now) way.now.range.now.lo.now }
    requires order { AreInOrder None (spots_of pending.items) }
    ensures calls { tally.new.calls ≡ tally.old.calls }
    ensures stays { Stays S.is_fixed (S.holds shelf.old) (S.holds shelf.new) }
    ensures grows { (bytes : List ℕ) → S.used shelf.old bytes → S.used shelf.new bytes }
    ensures fetches { FetchesBelow (suc level) result
        (nodes_around S.holds S.used shelf.old shelf.new) tally.old.fetches tally.new.fetches }
    ensures told { (top : List ℕ)
        → AreWanted (S.used shelf.old) (number_of way.now.tree) top level
        (spots_of pending.entry.items)
        → IfErr result
        (HasReason (number_of way.now.tree) top (S.holds shelf.new) (S.used shelf.new)) }
    ensures gives { OnOk result (GathersFrom G.gathers
        (IsClosedChild G.closing (range_of way.now.range.now)) (IsBetweenLevels 0 (suc level))
        (nodes_around S.holds S.used shelf.old shelf.new) tally.old.fetches tally.new.fetches
        (number_of way.now.tree) (range_of way.now.range.now)
        (map (wanted_of level) (spots_of pending.entry.items)) gathered.old gathered.new) }
    ensures answer { (shape : Shape) (entries : List Binding)
        → IsReached G.closing shape (number_of way.now.tree) entries (range_of way.now.range.now)
        level (spots_of pending.entry.items)
        → Outcome cause_of (λ _. GathersBelow G.gathers G.closing (range_of way.now.range.now)
        (levels shape (number_of way.now.tree) entries) level gathered.old gathered.new)
        (IsOpenedIn G.closing (range_of way.now.range.now)
        (levels shape (number_of way.now.tree) entries) 0 level)
        (nodes_around S.holds S.used shelf.old shelf.new) result }
{
    let mut pending = pending;
    let mut level = level;
    while level > 0 {
        pending = open_level(way, shelf, level, pending.as_slice(), tally, gathered)?;
        level -= 1;
    }
    take_leaves(way, shelf, pending.as_slice(), tally, gathered)
}

/// Fetches inner nodes of this level, gives those of their children that are opened, and gathers those
/// that stay closed.
fn open_level<'a, S: Shelf<'a>, G: Gather<'a>>(
    way: &Way<'_>,
    shelf: &mut S,
    level: u8,
    nodes: &[Pending<'a>],
    tally: &mut Tally,
    gathered: &mut G,
) -> Result<AllPending<'a>, WalkFault>
    requires inner { 1 ≤ level }
    requires some { IsIn (range_of way.now.range.now) way.now.range.now.lo.now }
    requires order { AreInOrder None (spots_of nodes.now) }
    ensures calls { tally.new.calls ≡ tally.old.calls }
    ensures stays { Stays S.is_fixed (S.holds shelf.old) (S.holds shelf.new) }
    ensures grows { (bytes : List ℕ) → S.used shelf.old bytes → S.used shelf.new bytes }
    ensures fetches { FetchesLevel level result
        (nodes_around S.holds S.used shelf.old shelf.new) tally.old.fetches tally.new.fetches }
    ensures order { IfOk result (λ pending. AreInOrder None (spots_of pending.items)) }
    ensures told { (top : List ℕ)
        → AreWanted (S.used shelf.old) (number_of way.now.tree) top level (spots_of nodes.now)
        → IfErr result
        (HasReason (number_of way.now.tree) top (S.holds shelf.new) (S.used shelf.new)) }
    ensures wanted { (top : List ℕ)
        → AreWanted (S.used shelf.old) (number_of way.now.tree) top level (spots_of nodes.now)
        → IfOk result (λ pending. AreWanted (S.used shelf.new) (number_of way.now.tree) top
        (level - 1) (spots_of pending.items)) }
    ensures gives { IfOk result (λ pending. ReadsLevel G.gathers
        (IsClosedChild G.closing (range_of way.now.range.now))
        (nodes_around S.holds S.used shelf.old shelf.new) tally.old.fetches tally.new.fetches
        (number_of way.now.tree) level (range_of way.now.range.now)
        (spots_of nodes.now) (spots_of pending.items) gathered.old gathered.new) }
    ensures answer { (spots : List (Option (List ℕ) × Node))
        → AreStated (number_of way.now.tree) level (spots_of nodes.now) spots
        → Outcome cause_of (λ pending. GathersClosed G.gathers G.closing
        (range_of way.now.range.now) (children_of_all spots) (spots_of pending.items)
        gathered.old gathered.new)
        (IsOneOf spots) (nodes_around S.holds S.used shelf.old shelf.new) result }
{
    let mut pending: AllPending<'a> = SmallVec::new(way.alloc);
    for node in nodes {
        let children = open_inner(shelf, node, way.tree, level, tally)?;
        pick(children, node.left, way.range, &mut pending, gathered)?;
    }
    Ok(pending)
}

/// Fetches leaves, and gathers those of their entries that are in the range.
fn take_leaves<'a, S: Shelf<'a>, G: Gather<'a>>(
    way: &Way<'_>,
    shelf: &mut S,
    nodes: &[Pending<'a>],
    tally: &mut Tally,
    gathered: &mut G,
) -> Result<(), WalkFault>
    requires order { AreInOrder None (spots_of nodes.now) }
    ensures calls { tally.new.calls ≡ tally.old.calls }
    ensures stays { Stays S.is_fixed (S.holds shelf.old) (S.holds shelf.new) }
    ensures grows { (bytes : List ℕ) → S.used shelf.old bytes → S.used shelf.new bytes }
    ensures fetches { FetchesLevel 0 result
        (nodes_around S.holds S.used shelf.old shelf.new) tally.old.fetches tally.new.fetches }
    ensures told { (top : List ℕ)
        → AreWanted (S.used shelf.old) (number_of way.now.tree) top 0 (spots_of nodes.now)
        → IfErr result
        (HasReason (number_of way.now.tree) top (S.holds shelf.new) (S.used shelf.new)) }
    ensures gives { OnOk result (GathersFrom G.gathers
        (IsClosedChild G.closing (range_of way.now.range.now)) (IsOfLevel 0)
        (nodes_around S.holds S.used shelf.old shelf.new) tally.old.fetches tally.new.fetches
        (number_of way.now.tree) (range_of way.now.range.now)
        (map (wanted_of 0) (spots_of nodes.now)) gathered.old gathered.new) }
    ensures answer { (spots : List (Option (List ℕ) × Node))
        → AreStated (number_of way.now.tree) 0 (spots_of nodes.now) spots
        → Outcome cause_of (λ _. GathersEntries G.gathers (range_of way.now.range.now)
        (entries_of_all spots) gathered.old gathered.new)
        (IsOneOf spots) (nodes_around S.holds S.used shelf.old shelf.new) result }
{
    for node in nodes {
        let entries = open_leaf(shelf, node, way.tree, tally)?;
        take(entries, way.range, gathered)?;
    }
    Ok(())
}

/// Gathers the entries that are in the range. It stops at the first key that the range doesn't reach.
fn take<'a, G: Gather<'a>>(
    entries: Entries<'a>,
    range: &KeyRange<'_>,
    gathered: &mut G,
) -> Result<(), AllocError>
    requires { AreRisingFrom None (keys_of entries) }
    ensures { OnOk result (GathersEntries G.gathers (range_of range.now) entries.entry
        gathered.old gathered.new) }
{
    for item in entries.skip_below(range.lo) {
        if !range.reaches(item.key) {
            return Ok(());
        }
        gathered.take(item)?;
    }
    Ok(())
}
