//! Going down a tree towards a key.

ghost use Rattle.std.specs.Prelude.{◌≡◌, ◌≤◌, ◌⊎◌, ◌↔◌, ◌&&◌, [], ℕ, List, IfErr, IfNone, IfOk, IfSome, IsTrue, OnOk, length};
ghost use Rattle.tree_build.specs.internal.Edits.{IsOldNode};
ghost use Rattle.tree_node.specs.NodeRefs.{link_of, node_read};
ghost use Rattle.tree_node.specs.Nodes.{Binding, Link};
ghost use Rattle.tree_node.specs.Shelves.{Stays};
ghost use Rattle.tree_node.specs.Trees.{Two, levels, links_in};
ghost use Rattle.tree_build.specs.internal.Holding.{IsHeldLevel, IsOnWay, IsSoughtNode};
ghost use Rattle.tree_build.specs.StrangeShelves.{HasNoTwin, IsRefusedFor};
ghost use Rattle.tree_build.specs.internal.Seeking.{IsSought, Reaches};

use crate::old_node::{OpenNode, level_in, open_old};
use crate::rebuild_fault::RebuildFault;
use tree_node::{Child, Children, Digest, NodeRef, Shelf, is_below};

/// Whether a key reaches the one that is wanted: isn't below it, or, where what lies above that one is
/// wanted, is above it.
pub(crate) fn reaches(wanted: &[u8], above: bool, key: &[u8]) -> bool
    ensures { IsTrue result ↔ Reaches wanted.now above key.now }
{
    if above {
        is_below(wanted, key)
    } else {
        !is_below(key, wanted)
    }
}

/// Whether no children are to come.
fn is_end(children: &Children<'_>) -> bool
    ensures { IsTrue result ↔ (children.now ≡ []) }
{
    match children.again().next() {
        Some(_) => false,
        None => true,
    }
}

/// The first of the children that reaches the wanted key, or the last one; and whether it is the last. None where there are
/// no children.
pub(crate) fn pick_child<'a>(
    children: Children<'a>,
    wanted: &[u8],
    above: bool,
) -> Option<(Child<'a>, bool)>
    ensures some { IfSome result (λ found. (front back : List Link)
        × IsSought (λ (link : Link). link.greatest) wanted.now above
        children.entry front (link_of found.0) back
        × (IsTrue found.1 ↔ (back ≡ []))) }
    ensures none { IfNone result (length children.entry ≡ 0) }
{
    let mut rest = children;
    while let Some(child) = rest.next() {
        let is_last = is_end(&rest);
        if is_last || reaches(wanted, above, child.greatest) {
            return Some((child, is_last));
        }
    }
    None
}

/// The first of the node's children that reaches the wanted key, or the last one; and whether it is the
/// last. None where it has no children.
fn child_of<'a>(node: &NodeRef<'a>, wanted: &[u8], above: bool) -> Option<(Child<'a>, bool)>
    ensures some { IfSome result (λ found. (front back : List Link)
        × IsSought (λ (link : Link). link.greatest) wanted.now above
        (links_in (node_read node.now)) front (link_of found.0) back
        × (IsTrue found.1 ↔ (back ≡ []))) }
    ensures none { IfNone result (length (links_in (node_read node.now)) ≡ 0) }
{
    match node {
        NodeRef::Leaf { .. } => None,
        NodeRef::Inner { children, .. } => pick_child(children.again(), wanted, above),
    }
}

/// Whether both are true.
fn are_both(left: bool, right: bool) -> bool
    ensures { result ≡ (left && right) }
{
    left && right
}

/// The first node of the level whose greatest key reaches the wanted key, or the last one; and whether it
/// is the last. It goes down from the top, and fetches just the nodes that it goes by. `NoTree` where one of them has no
/// children, or a child that isn't below it.
pub(crate) fn seek<'a, S: Shelf<'a>>(
    shelf: &mut S,
    top: &Digest,
    level: u8,
    wanted: &[u8],
    above: bool,
) -> Result<(OpenNode<'a>, bool), RebuildFault>
    ensures stays { Stays S.is_fixed (S.holds shelf.old) (S.holds shelf.new) }
    ensures grows { (bytes : List ℕ) → S.used shelf.old bytes → S.used shelf.new bytes }
    ensures node { (tree : ℕ) (entries : List Binding)
        → IsHeldLevel (HasNoTwin (S.used shelf.new)) top.now.0 tree level entries
        → IfOk result (λ found. IsSoughtNode (levels Two tree entries) level wanted.now above
        (node_read found.0.node) found.1) }
    ensures old { IfOk result (λ found. IsOldNode found.0.old (node_read found.0.node)) }
    ensures used { (tree : ℕ) (entries : List Binding)
        → IsHeldLevel (HasNoTwin (S.used shelf.new)) top.now.0 tree level entries
        → OnOk result ((bytes : List ℕ) → S.used shelf.new bytes
        → S.used shelf.old bytes ⊎ IsOnWay (levels Two tree entries) level wanted.now above bytes) }
    // It is refused for memory, or the shelf doesn't hold a node of the tree.
    ensures told { (tree : ℕ) (entries : List Binding)
        → IsHeldLevel (HasNoTwin (S.used shelf.new)) top.now.0 tree level entries
        → IfErr result (IsRefusedFor (levels Two tree entries) (S.holds shelf.new)) }
{
    let mut found = open_old(shelf, top)?;
    let mut last = true;
    while level_in(&found.node) > level {
        let Some((child, is_last)) = child_of(&found.node, wanted, above) else {
            return Err(RebuildFault::NoTree);
        };
        let below = open_old(shelf, &child.digest)?;
        if level_in(&below.node) >= level_in(&found.node) {
            return Err(RebuildFault::NoTree);
        }
        last = are_both(last, is_last);
        found = below;
    }
    Ok((found, last))
}
