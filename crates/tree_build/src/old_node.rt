//! Fetching the nodes of the old tree.

ghost use Rattle.std.specs.Prelude.{◌≡◌, ◌⊎◌, ℕ, List, IfErr, IfOk};
ghost use Rattle.tree_build.specs.internal.Holding.{IsHeld};
ghost use Rattle.tree_build.specs.internal.Edits.{IsOldNode};
ghost use Rattle.tree_node.specs.NodeRefs.{node_read};
ghost use Rattle.tree_node.specs.Nodes.{Node, level_of, spelling};
ghost use Rattle.tree_build.specs.StrangeShelves.{HasNoTwin, cause_of};
ghost use Rattle.tree_node.specs.Outcomes.{RefusedFor};
ghost use Rattle.tree_node.specs.Shelves.{Stays};
ghost use Rattle.tree_node.specs.Trees.{greatest_of};

use crate::rebuild_fault::RebuildFault;
use tree_node::{Digest, Fetched, NodeRef, Shelf, ShelfFault};

/// A node of the old tree.
#[derive(Clone, Copy)]
pub(crate) struct OldNode<'a> {
    /// The digest of the bytes.
    pub(crate) digest: Digest,
    /// The node's bytes.
    pub(crate) bytes: &'a [u8],
    /// The greatest key below the node; empty for the leaf without entries.
    pub(crate) greatest: &'a [u8],
}

/// A node of the old tree, with what its bytes say.
#[derive(Drop)]
pub(crate) struct OpenNode<'a> {
    pub(crate) node: NodeRef<'a>,
    pub(crate) old: OldNode<'a>,
}

/// The node with this digest. Whatever the shelf is, it is the node that was put under it, unless another one has its
/// digest.
pub(crate) fn open_old<'a, S: Shelf<'a>>(
    shelf: &mut S,
    key: &Digest,
) -> Result<OpenNode<'a>, RebuildFault>
    ensures stays { Stays S.is_fixed (S.holds shelf.old) (S.holds shelf.new) }
    ensures grows { (bytes : List ℕ) → S.used shelf.old bytes → S.used shelf.new bytes }
    ensures node { (node : Node) → IsHeld (HasNoTwin (S.used shelf.new)) key.now.0 node
        → IfOk result (λ found. node_read found.node ≡ node) }
    ensures old { IfOk result (λ found. IsOldNode found.old (node_read found.node)) }
    ensures used { (node : Node) → IsHeld (HasNoTwin (S.used shelf.new)) key.now.0 node
        → (bytes : List ℕ) → S.used shelf.new bytes
        → S.used shelf.old bytes ⊎ (bytes ≡ spelling node) }
    // It is refused for memory, or the shelf doesn't hold it.
    ensures told { (node : Node) → IsHeld (HasNoTwin (S.used shelf.new)) key.now.0 node
        → IfErr result (λ fault. RefusedFor (λ bytes. bytes ≡ spelling node) (S.holds shelf.new)
        (cause_of fault)) }
{
    match shelf.fetch_node(key) {
        Ok(Fetched { bytes, read }) => match read {
            Ok(node) => {
                let old = OldNode {
                    digest: *key,
                    bytes,
                    greatest: greatest_in(&node),
                };
                Ok(OpenNode { node, old })
            }
            Err(_) => Err(RebuildFault::NoTree),
        },
        Err(ShelfFault::Missing) => Err(RebuildFault::Missing),
        Err(ShelfFault::Memory) => Err(RebuildFault::Memory),
    }
}

/// The greatest key below a node.
fn greatest_in<'a>(node: &NodeRef<'a>) -> &'a [u8]
    ensures { result.now ≡ greatest_of (node_read node.now) }
{
    match node {
        NodeRef::Leaf { entries, .. } => entries.greatest(),
        NodeRef::Inner { children, .. } => children.greatest(),
    }
}

/// The level of a node.
pub(crate) fn level_in(node: &NodeRef<'_>) -> u8
    ensures { result ≡ level_of (node_read node.now) }
{
    match node {
        NodeRef::Leaf { .. } => 0,
        NodeRef::Inner { level, .. } => *level,
    }
}
