//! The two calls: the entries of a tree in a range of keys, and their number.

ghost use Rattle.std.specs.Prelude.{◌≡◌, ℕ, List, IfErr, IfOk, true};
ghost use Rattle.tree_node.specs.NodeRefs.{bindings_of, number_of};
ghost use Rattle.tree_node.specs.Nodes.{Binding};
ghost use Rattle.tree_node.specs.Outcomes.{Outcome};
ghost use Rattle.tree_node.specs.Shelves.{HasNone, Stays};
ghost use Rattle.tree_node.specs.Trees.{Shape, levels};
ghost use Rattle.tree_walk.specs.Choices.{AreThose, IsCount};
ghost use Rattle.tree_walk.specs.Fetches.{Fetches, cause_of, counted_up};
ghost use Rattle.tree_walk.specs.Given.{IsWalk, SoMany, These};
ghost use Rattle.tree_walk.specs.Ranges.{IsIn, range_of};
ghost use Rattle.tree_walk.specs.Reasons.{HasReason};
ghost use Rattle.tree_walk.specs.Uses.{nodes_around};
ghost use Rattle.tree_walk.specs.Walks.{IsEntryIn, IsMet, IsMetCounted, IsTopOf};

use crate::descent::gather;
use crate::fault::WalkFault;
use crate::gather::{Counted, Found};
use crate::key_range::KeyRange;
use crate::tally::Tally;
use std::alloc::Global;
use tree_node::{Digest, Item, Shelf, Tree};

/// The entries of a tree in a range of keys, in the order of their keys: what is below the node with
/// the digest `top`. Keys and values are slices of the nodes that the shelf gave, and outlive it.
///
/// It fetches the top, and then, level by level, those children of the fetched nodes that meet the range. Over a tree as
/// a publisher builds it these are exactly the nodes that meet the range, each once. Over other nodes it ends too, since
/// it never accepts the same node twice. The tally counts one call, and each node that the shelf gave.
///
/// Refused with `Missing` (V1) if the shelf doesn't hold a node that the walk needs, with `Malformed` (V2) if what it gave
/// isn't a node, with `WrongTreeOrLevel` (V3) or `Disagrees` (V4) if a child isn't as its parent states, and if memory
/// runs out. After a refusal shelf and tally show what was fetched. Linear in the bytes of the fetched nodes.
///
/// Source: this project's trees, docs/FORMATS.md.
pub fn range<'a, S: Shelf<'a>>(
    alloc: Global,
    shelf: &mut S,
    top: &Digest,
    tree: Tree,
    range: &KeyRange<'_>,
    tally: &mut Tally,
) -> Result<Vec<Item<'a>>, WalkFault>
    requires { IsIn (range_of range.now) range.now.lo.now }
    // What is held stays held, on a fixed shelf just that, and what was used stays used.
    ensures stays { Stays S.is_fixed (S.holds shelf.old) (S.holds shelf.new) }
    ensures grows { (bytes : List ℕ) → S.used shelf.old bytes → S.used shelf.new bytes }
    // One call was counted, and the fetched nodes, which differ.
    ensures calls { tally.new.calls ≡ counted_up tally.old.calls 1 }
    ensures fetches { Fetches result (nodes_around S.holds S.used shelf.old shelf.new)
        tally.old.fetches tally.new.fetches }
    // A refusal tells what is wrong with a node that it came to want,
    ensures told { IfErr result
        (HasReason (number_of tree) top.now.0 (S.holds shelf.new) (S.used shelf.new)) }
    // and on a fixed shelf it is V1 if the top isn't held.
    ensures none { S.is_fixed ≡ true → HasNone (S.holds shelf.new) top.now.0
        → result ≡ Err WalkFault.Missing }
    // Whatever the nodes are: those that it fetched, one at least, and no others give these entries.
    ensures gives { IfOk result (λ found. IsWalk
        (nodes_around S.holds S.used shelf.old shelf.new) tally.old.fetches tally.new.fetches
        tree top.now.0 (range_of range.now) (These (bindings_of found.items))) }
    // Under the top of a tree: exactly the entries in the range, from exactly the nodes that meet it.
    ensures answer { (shape : Shape) (entries : List Binding)
        → IsTopOf shape (number_of tree) entries top.now.0
        → Outcome cause_of
        (λ found. AreThose (IsEntryIn (range_of range.now)) entries (bindings_of found.items))
        (IsMet (range_of range.now) (levels shape (number_of tree) entries))
        (nodes_around S.holds S.used shelf.old shelf.new) result }
{
    range_within(alloc, shelf, top, tree, range, usize::MAX, tally)
}

/// The entries of a tree in a range of keys as [`range`] gives them, where there are at most so many.
///
/// Where there are more it is refused as if memory ran out, before it holds more of them, and before more children of one
/// level than that, and two, wait to be opened: what it needs is linear in the number that is allowed, whatever the range
/// has. Whoever has to tell the two refusals apart counts the range. All else is as for `range`.
///
/// Source: this project's trees, docs/FORMATS.md.
pub fn range_within<'a, S: Shelf<'a>>(
    alloc: Global,
    shelf: &mut S,
    top: &Digest,
    tree: Tree,
    range: &KeyRange<'_>,
    most: usize,
    tally: &mut Tally,
) -> Result<Vec<Item<'a>>, WalkFault>
    requires { IsIn (range_of range.now) range.now.lo.now }
    // What is held stays held, on a fixed shelf just that, and what was used stays used.
    ensures stays { Stays S.is_fixed (S.holds shelf.old) (S.holds shelf.new) }
    ensures grows { (bytes : List ℕ) → S.used shelf.old bytes → S.used shelf.new bytes }
    // One call was counted, and the fetched nodes, which differ.
    ensures calls { tally.new.calls ≡ counted_up tally.old.calls 1 }
    ensures fetches { Fetches result (nodes_around S.holds S.used shelf.old shelf.new)
        tally.old.fetches tally.new.fetches }
    // A refusal tells what is wrong with a node that it came to want,
    ensures told { IfErr result
        (HasReason (number_of tree) top.now.0 (S.holds shelf.new) (S.used shelf.new)) }
    // and on a fixed shelf it is V1 if the top isn't held.
    ensures none { S.is_fixed ≡ true → HasNone (S.holds shelf.new) top.now.0
        → result ≡ Err WalkFault.Missing }
    // Whatever the nodes are: those that it fetched, one at least, and no others give these entries.
    ensures gives { IfOk result (λ found. IsWalk
        (nodes_around S.holds S.used shelf.old shelf.new) tally.old.fetches tally.new.fetches
        tree top.now.0 (range_of range.now) (These (bindings_of found.items))) }
    // Under the top of a tree: exactly the entries in the range, from exactly the nodes that meet it.
    ensures answer { (shape : Shape) (entries : List Binding)
        → IsTopOf shape (number_of tree) entries top.now.0
        → Outcome cause_of
        (λ found. AreThose (IsEntryIn (range_of range.now)) entries (bindings_of found.items))
        (IsMet (range_of range.now) (levels shape (number_of tree) entries))
        (nodes_around S.holds S.used shelf.old shelf.new) result }
{
    let mut found: Found<'a> = Found {
        items: Vec::new(alloc),
        most,
    };
    gather(alloc, shelf, top, tree, range, tally, &mut found)?;
    Ok(found.items)
}

/// The number of entries of a tree in a range of keys: what is below the node with the digest `top`.
///
/// It works as `range` does, but doesn't open a child that the range covers: it adds the number of entries that the
/// parent states for it. Over a tree as a publisher builds it the number is at most 2^29; over other nodes it saturates
/// at 2^64 - 1. Refusals, shelf and tally are as for `range`.
///
/// Source: this project's trees, docs/FORMATS.md.
pub fn count<'a, S: Shelf<'a>>(
    alloc: Global,
    shelf: &mut S,
    top: &Digest,
    tree: Tree,
    range: &KeyRange<'_>,
    tally: &mut Tally,
) -> Result<u64, WalkFault>
    requires { IsIn (range_of range.now) range.now.lo.now }
    // What is held stays held, on a fixed shelf just that, and what was used stays used.
    ensures stays { Stays S.is_fixed (S.holds shelf.old) (S.holds shelf.new) }
    ensures grows { (bytes : List ℕ) → S.used shelf.old bytes → S.used shelf.new bytes }
    // One call was counted, and the fetched nodes, which differ.
    ensures calls { tally.new.calls ≡ counted_up tally.old.calls 1 }
    ensures fetches { Fetches result (nodes_around S.holds S.used shelf.old shelf.new)
        tally.old.fetches tally.new.fetches }
    // A refusal tells what is wrong with a node that it came to want,
    ensures told { IfErr result
        (HasReason (number_of tree) top.now.0 (S.holds shelf.new) (S.used shelf.new)) }
    // and on a fixed shelf it is V1 if the top isn't held.
    ensures none { S.is_fixed ≡ true → HasNone (S.holds shelf.new) top.now.0
        → result ≡ Err WalkFault.Missing }
    // Whatever the nodes are: those that it fetched, one at least, and no others give this number.
    ensures gives { IfOk result (λ number. IsWalk
        (nodes_around S.holds S.used shelf.old shelf.new) tally.old.fetches tally.new.fetches
        tree top.now.0 (range_of range.now) (SoMany number)) }
    // Under the top of a tree: the number of the entries in the range, from exactly the nodes that meet it and that it
    // doesn't cover.
    ensures answer { (shape : Shape) (entries : List Binding)
        → IsTopOf shape (number_of tree) entries top.now.0
        → Outcome cause_of
        (λ number. IsCount (IsEntryIn (range_of range.now)) entries number)
        (IsMetCounted (range_of range.now) (levels shape (number_of tree) entries))
        (nodes_around S.holds S.used shelf.old shelf.new) result }
{
    let mut counted = Counted { number: 0 };
    gather(alloc, shelf, top, tree, range, tally, &mut counted)?;
    Ok(counted.number)
}
