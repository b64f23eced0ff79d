//! Coming down to the top of a tree that lost levels.

ghost use Rattle.std.specs.Prelude.{◌≡◌, ◌⊎◌, ◌∷◌, ◌++◌, ◌≤◌, ◌==◌, [], ℕ, List, IfErr, IfOk, OnOk, if◌then◌else◌, length};
ghost use Rattle.tree_build.specs.Changing.{Change};
ghost use Rattle.tree_build.specs.Rebuilding.{changed_entries, digests_of};
ghost use Rattle.tree_build.specs.StrangeShelves.{HasNoTwin, IsRefusedFor, cause_of};
ghost use Rattle.tree_node.specs.Outcomes.{RefusedFor};
ghost use Rattle.tree_build.specs.internal.Edits.{IsNewNode};
ghost use Rattle.tree_build.specs.internal.Holding.{IsHeld};
ghost use Rattle.tree_build.specs.internal.Shrinking.{CanShrink, HasShrunk, IsOnlyChild, IsReadBy};
ghost use Rattle.tree_build.specs.internal.Towers.{tower};
ghost use Rattle.tree_build.specs.declared.piece.NewPiece.{NewPiece as New};
ghost use Rattle.tree_node.specs.Nodes.{Binding, IsNode, Node, spelling};
ghost use Rattle.tree_node.specs.NodeRefs.{node_read};
ghost use Rattle.tree_node.specs.Shelves.{Stays};
ghost use Rattle.tree_node.specs.Trees.{Two, levels};

use crate::old_node::open_old;
use crate::rebuild_fault::RebuildFault;
use crate::step::LevelEdit;
use std::alloc::AllocError;
use tree_node::{Digest, NodeRef, Shelf};

/// The top of a new tree.
#[derive(Clone, Copy)]
pub(crate) struct Top {
    pub(crate) digest: Digest,
    pub(crate) level: usize,
}

/// The top of the new tree: from the one node of the last level down to the first that is a leaf or has
/// two children. The nodes that it goes by and that aren't new are told as gone.
pub(crate) fn shrink_top<'a, 'c, S: Shelf<'a>>(
    shelf: &mut S,
    edits: &[LevelEdit<'c>],
    digest: &Digest,
    gone: &mut Vec<Digest>,
) -> Result<Top, RebuildFault>
    requires { 1 ≤ length edits.now }
    ensures stays { Stays S.is_fixed (S.holds shelf.old) (S.holds shelf.new) }
    ensures grows { (bytes : List ℕ) → S.used shelf.old bytes → S.used shelf.new bytes }
    ensures settled { (tree : ℕ) (top : List ℕ) (changes : List (Change Binding))
        (entries : List Binding)
        → CanShrink (HasNoTwin (S.used shelf.new)) tree top changes entries edits.now digest.now.0
        → IfOk result (λ found. HasShrunk (tower Two tree (changed_entries entries changes))
        edits.now (digests_of gone.old.items) (digests_of gone.new.items)
        found.digest.0 found.level) }
    // It reads just the nodes that aren't new on its way down.
    ensures used { (tree : ℕ) (top : List ℕ) (changes : List (Change Binding))
        (entries : List Binding)
        → CanShrink (HasNoTwin (S.used shelf.new)) tree top changes entries edits.now digest.now.0
        → IfOk result (λ found. (bytes : List ℕ) → S.used shelf.new bytes
        → S.used shelf.old bytes ⊎ IsReadBy (tower Two tree (changed_entries entries changes))
        edits.now found.level bytes) }
    // It is refused for memory, or the shelf doesn't hold a node of the old tree.
    ensures told { (tree : ℕ) (top : List ℕ) (changes : List (Change Binding))
        (entries : List Binding)
        → CanShrink (HasNoTwin (S.used shelf.new)) tree top changes entries edits.now digest.now.0
        → IfErr result (IsRefusedFor (levels Two tree entries) (S.holds shelf.new)) }
{
    let mut level = edits.len() - 1;
    let mut top = *digest;
    'down: while let Some(below) = only_child_at(shelf, &edits[level], &top)? {
        if level == 0 {
            return Err(RebuildFault::NoTree);
        }
        push_stayed(&edits[level], &top, gone)?;
        top = below;
        level -= 1;
    }
    Ok(Top { digest: top, level })
}

/// Appends the digest of the one node of a level, where it isn't new.
fn push_stayed(
    edit: &LevelEdit<'_>,
    digest: &Digest,
    gone: &mut Vec<Digest>,
) -> Result<(), AllocError>
    ensures { OnOk result (digests_of gone.new.items ≡ digests_of gone.old.items
        ++ (if length edit.now.news.items == 0 then digest.now.0 ∷ [] else [])) }
{
    if edit.news.is_empty() {
        gone.push(*digest)?;
    }
    Ok(())
}

/// The digest of the only child of the one node of a level, which has this digest.
fn only_child_at<'a, 'c, S: Shelf<'a>>(
    shelf: &mut S,
    edit: &LevelEdit<'c>,
    digest: &Digest,
) -> Result<Option<Digest>, RebuildFault>
    ensures stays { Stays S.is_fixed (S.holds shelf.old) (S.holds shelf.new) }
    ensures grows { (bytes : List ℕ) → S.used shelf.old bytes → S.used shelf.new bytes }
    ensures child { (node : Node) → IsNode node
        → (edit.now.news.items ≡ [] → IsHeld (HasNoTwin (S.used shelf.new)) digest.now.0 node)
        → ((new : New) (others : List New) → edit.now.news.items ≡ new ∷ others
        → IsNewNode new node)
        → IfOk result (IsOnlyChild node) }
    ensures used { (node : Node)
        → (edit.now.news.items ≡ [] → IsHeld (HasNoTwin (S.used shelf.new)) digest.now.0 node)
        → (bytes : List ℕ) → S.used shelf.new bytes
        → S.used shelf.old bytes ⊎ ((edit.now.news.items ≡ []) × (bytes ≡ spelling node)) }
    ensures told { (node : Node)
        → (edit.now.news.items ≡ [] → IsHeld (HasNoTwin (S.used shelf.new)) digest.now.0 node)
        → IfErr result (λ fault. RefusedFor
        (λ bytes. (edit.now.news.items ≡ []) × (bytes ≡ spelling node)) (S.holds shelf.new)
        (cause_of fault)) }
{
    match edit.news.first() {
        Some(new) => Ok(only_child(new.node.bytes.as_slice())),
        None => {
            let opened = open_old(shelf, digest)?;
            Ok(only_child(opened.old.bytes))
        }
    }
}

/// The digest of the only child of the node with these bytes; none of a leaf, and none of a node with
/// two children or more.
fn only_child(bytes: &[u8]) -> Option<Digest>
    ensures { (node : Node) → IsNode node → bytes.now ≡ spelling node → IsOnlyChild node result }
{
    match NodeRef::read(bytes) {
        Ok(node) => child_alone(node),
        Err(_) => None,
    }
}

/// The digest of the node's only child; none of a leaf, and none of a node with two children or more.
fn child_alone(node: NodeRef<'_>) -> Option<Digest>
    ensures { IsOnlyChild (node_read node.entry) result }
{
    match node {
        NodeRef::Leaf { .. } => None,
        NodeRef::Inner { mut children, .. } => match children.next() {
            None => None,
            Some(child) => match children.next() {
                Some(_) => None,
                None => Some(child.digest),
            },
        },
    }
}
