//! Which nodes of a level a rebuild added, and which are gone.

ghost use Rattle.std.specs.Prelude.{◌≡◌, ◌++◌, List, OnOk, map};
ghost use Rattle.tree_build.specs.Rebuilding.{digests_of, nodes_of};
ghost use Rattle.tree_build.specs.internal.Differing.{gained_by};
ghost use Rattle.tree_build.specs.internal.Edits.{Each, IsNewNode, IsOldNode, StandForNodes};
ghost use Rattle.tree_build.specs.internal.Telling.{HasTold, node_digest};
ghost use Rattle.tree_node.specs.Nodes.{Node, spelling};

use crate::node_merge::merge_step;
use crate::old_node::OldNode;
use crate::piece::NewPiece;
use std::alloc::AllocError;
use tree_node::{Digest, NewNode};

/// Appends what a level of the new tree has gained and lost: the nodes that these old ones and those in
/// their place differ by.
pub(crate) fn push_level_diff(
    olds: &[OldNode<'_>],
    news: Vec<NewPiece<'_>>,
    added: &mut Vec<NewNode>,
    gone: &mut Vec<Digest>,
) -> Result<(), AllocError>
    ensures { (old_nodes new_nodes : List Node)
        → StandForNodes olds.now news.entry.items old_nodes new_nodes
        → OnOk result (HasTold old_nodes new_nodes
        (nodes_of added.old.items) (nodes_of added.new.items)
        (digests_of gone.old.items) (digests_of gone.new.items)) }
{
    let mut done = 0;
    for new in news {
        let step = merge_step(&olds[done..], &new);
        push_gone_digests(step.gone, gone)?;
        push_if_new(step.is_new, new, added)?;
        done += step.up_to;
    }
    push_gone_digests(&olds[done..], gone)?;
    Ok(())
}

/// Appends the node, where it is new.
fn push_if_new(is_new: bool, new: NewPiece<'_>, added: &mut Vec<NewNode>) -> Result<(), AllocError>
    ensures { (node : Node) → IsNewNode new.entry node → OnOk result (nodes_of added.new.items
        ≡ nodes_of added.old.items ++ map spelling (gained_by is_new node)) }
{
    if is_new {
        added.push(new.node)?;
    }
    Ok(())
}

/// Appends the digests of these nodes.
pub(crate) fn push_gone_digests(
    olds: &[OldNode<'_>],
    gone: &mut Vec<Digest>,
) -> Result<(), AllocError>
    ensures { (nodes : List Node) → Each IsOldNode olds.now nodes → OnOk result
        (digests_of gone.new.items ≡ digests_of gone.old.items ++ map node_digest nodes) }
{
    for old in olds {
        gone.push(old.digest)?;
    }
    Ok(())
}
