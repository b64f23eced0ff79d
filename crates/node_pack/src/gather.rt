//! The nodes of a pack are gathered from the root down.

ghost use Rattle.std.specs.Prelude.{◌≡◌, ◌≤◌, ◌++◌, ℕ, suc, IfErr, IfOk, List, OnOk};
ghost use Rattle.tree_node.specs.Shelves.{Stays};
ghost use Rattle.node_pack.specs.Reached.{Fits, IsReason, IsUnder};
ghost use Rattle.node_pack.specs.internal.Gathering.{AllClosed, AllGathered, AreGathered, AreLow, IsClosed, IsFound, IsGathered, IsSeen, IsWhole, digest_in, height_of, height_wanted};
ghost use Rattle.node_pack.specs.declared.gathered.Gathered.{Gathered};

use crate::gathered::{Gathered, read_wanted};
use crate::role::Wanted;
use crate::row::Row;
use crate::write_fault::WriteFault;
use std::alloc::Global;
use std::collections::HashSet;
use tree_node::{Digest, Shelf};

/// How many nodes stand one below the other at most: the manifest, and those of the levels from 63 to 0.
const DEPTH_LIMIT: usize = 65;

/// All nodes under a root, in the order of a pack.
///
/// Refused with `Missing` where the shelf lacks a node, with `Malformed` where a node isn't what refers to it says, with `TooLong`
/// where a record would have 2^32 bytes or more, and where memory is refused.
pub(crate) fn gather<'a, S: Shelf<'a>>(
    alloc: Global,
    shelf: &mut S,
    root: &Digest,
) -> Result<Vec<Gathered<'a>>, WriteFault>
    ensures stays { Stays S.is_fixed (S.holds shelf.old) (S.holds shelf.new) }
    ensures whole { IfOk result (λ nodes. IsWhole (S.holds shelf.new) root.now.0 nodes.items) }
    ensures refused { IfErr result (IsReason (S.holds shelf.new) root.now.0) }
{
    let mut nodes = gather_levels(alloc, shelf, root)?;
    nodes.sort_by_key(|node| Row::of(node.role))?;
    Ok(nodes)
}

/// All nodes under a root, level by level.
fn gather_levels<'a, S: Shelf<'a>>(
    alloc: Global,
    shelf: &mut S,
    root: &Digest,
) -> Result<Vec<Gathered<'a>>, WriteFault>
    ensures stays { Stays S.is_fixed (S.holds shelf.old) (S.holds shelf.new) }
    ensures whole { IfOk result (λ nodes. IsWhole (S.holds shelf.new) root.now.0 nodes.items) }
    ensures refused { IfErr result (IsReason (S.holds shelf.new) root.now.0) }
{
    let mut seen = HashSet::new(alloc);
    let mut nodes: Vec<Gathered<'a>> = Vec::new(alloc);
    let mut level: Vec<Gathered<'a>> = Vec::new(alloc);
    take(alloc, shelf, root, Wanted::Root, &mut seen, &mut level)?;
    for depth in 0..DEPTH_LIMIT {
        let mut next: Vec<Gathered<'a>> = Vec::new(alloc);
        take_level(alloc, shelf, level.as_slice(), &mut seen, &mut next)?;
        nodes.append(&mut level)?;
        level = next;
    }
    Ok(nodes)
}

/// Gathers the children of these nodes, except those that were seen.
fn take_level<'a, S: Shelf<'a>>(
    alloc: Global,
    shelf: &mut S,
    level: &[Gathered<'a>],
    seen: &mut HashSet<Digest>,
    next: &mut Vec<Gathered<'a>>,
) -> Result<(), WriteFault>
    ensures stays { Stays S.is_fixed (S.holds shelf.old) (S.holds shelf.new) }
    ensures grows { (key : List ℕ) → IsSeen seen.old key → IsSeen seen.new key }
    ensures closed { OnOk result (AllClosed (S.holds shelf.new) (IsSeen seen.new) level.now) }
    ensures gathered { (root : List ℕ) (before : List Gathered)
        → AllGathered (S.holds shelf.old) root level.now
        → AreGathered (S.holds shelf.old) root seen.old (before ++ next.old.items)
        → OnOk result (AreGathered (S.holds shelf.new) root seen.new (before ++ next.new.items)) }
    ensures low { (root : List ℕ) (height : ℕ) → AllGathered (S.holds shelf.old) root level.now
        → AreLow (suc height) level.now → AreLow height next.old.items
        → OnOk result (AreLow height next.new.items) }
    ensures refused { (root : List ℕ) → AllGathered (S.holds shelf.old) root level.now
        → IfErr result (IsReason (S.holds shelf.new) root) }
{
    for node in level {
        take_children(alloc, shelf, node, seen, next)?;
    }
    Ok(())
}

/// Gathers the children of a node, except those that were seen.
fn take_children<'a, S: Shelf<'a>>(
    alloc: Global,
    shelf: &mut S,
    node: &Gathered<'a>,
    seen: &mut HashSet<Digest>,
    next: &mut Vec<Gathered<'a>>,
) -> Result<(), WriteFault>
    ensures stays { Stays S.is_fixed (S.holds shelf.old) (S.holds shelf.new) }
    ensures grows { (key : List ℕ) → IsSeen seen.old key → IsSeen seen.new key }
    ensures closed { OnOk result (IsClosed (S.holds shelf.new) (IsSeen seen.new) node.now) }
    ensures gathered { (root : List ℕ) (before : List Gathered)
        → IsGathered (S.holds shelf.old) root node.now
        → AreGathered (S.holds shelf.old) root seen.old (before ++ next.old.items)
        → OnOk result (AreGathered (S.holds shelf.new) root seen.new (before ++ next.new.items)) }
    ensures low { (root : List ℕ) (height : ℕ) → IsGathered (S.holds shelf.old) root node.now
        → height_of node.now.role ≤ height → AreLow height next.old.items
        → OnOk result (AreLow height next.new.items) }
    ensures refused { (root : List ℕ) → IsGathered (S.holds shelf.old) root node.now
        → IfErr result (IsReason (S.holds shelf.new) root) }
{
    let children = node.children.as_slice();
    let mut at = 0;
    for child in children {
        let wanted = node.role.child(at);
        take(alloc, shelf, child, wanted, seen, next)?;
        at += 1;
    }
    Ok(())
}

/// Gathers the node with this digest, unless it was seen. Whether it is as wanted is looked at in any case.
fn take<'a, S: Shelf<'a>>(
    alloc: Global,
    shelf: &mut S,
    key: &Digest,
    wanted: Wanted,
    seen: &mut HashSet<Digest>,
    into: &mut Vec<Gathered<'a>>,
) -> Result<(), WriteFault>
    ensures stays { Stays S.is_fixed (S.holds shelf.old) (S.holds shelf.new) }
    ensures grows { (key : List ℕ) → IsSeen seen.old key → IsSeen seen.new key }
    ensures seen { OnOk result (IsSeen seen.new key.now.0) }
    ensures found { OnOk result (IsFound (S.holds shelf.new) wanted key.now.0) }
    ensures gathered { (root : List ℕ) (before : List Gathered)
        → IsUnder (S.holds shelf.old) root wanted key.now.0
        → AreGathered (S.holds shelf.old) root seen.old (before ++ into.old.items)
        → OnOk result (AreGathered (S.holds shelf.new) root seen.new (before ++ into.new.items)) }
    ensures low { (height : ℕ) → height_wanted wanted ≤ height → AreLow height into.old.items
        → OnOk result (AreLow height into.new.items) }
    ensures refused { (root : List ℕ) → IsUnder (S.holds shelf.old) root wanted key.now.0
        → IfErr result (IsReason (S.holds shelf.new) root) }
{
    let node = fetch_wanted(alloc, shelf, key, wanted)?;
    if !seen.insert(*key)? {
        return Ok(());
    }
    into.push(node)?;
    Ok(())
}

/// The node with this digest, if it is as wanted.
fn fetch_wanted<'a, S: Shelf<'a>>(
    alloc: Global,
    shelf: &mut S,
    key: &Digest,
    wanted: Wanted,
) -> Result<Gathered<'a>, WriteFault>
    ensures stays { Stays S.is_fixed (S.holds shelf.old) (S.holds shelf.new) }
    ensures key { IfOk result (λ node. digest_in node ≡ key.now.0) }
    ensures found { OnOk result (IsFound (S.holds shelf.new) wanted key.now.0) }
    ensures low { IfOk result (λ node. suc (height_of node.role) ≤ height_wanted wanted) }
    ensures gathered { (root : List ℕ) → IsUnder (S.holds shelf.old) root wanted key.now.0
        → IfOk result (IsGathered (S.holds shelf.new) root) }
    ensures refused { (root : List ℕ) → IsUnder (S.holds shelf.old) root wanted key.now.0
        → IfErr result (IsReason (S.holds shelf.new) root) }
{
    let node = shelf.fetch_node(key)?;
    read_wanted(alloc, *key, node, wanted)
}
