//! How the changes of one level change the next.

ghost use Rattle.std.specs.Prelude.{◌≡◌, ◌++◌, ◌∷◌, [], List, IfOk, OnOk};
ghost use Rattle.tree_build.specs.internal.Differing.{TheyDiffer, gone_changes, put, step_changes};
ghost use Rattle.tree_build.specs.internal.Edits.{IsNewNode, StandForNodes};
ghost use Rattle.tree_build.specs.internal.ItemChanges.{changes_meant};
ghost use Rattle.tree_node.specs.NodeRefs.{link_of};
ghost use Rattle.tree_node.specs.Nodes.{Node};

use crate::level_item::ItemChange;
use crate::node_merge::{MergeStep, merge_step};
use crate::old_node::OldNode;
use crate::piece::NewPiece;
use crate::step::LevelEdit;
use std::alloc::{AllocError, Global};
use tree_node::Child;

/// The changes of the items that stand for the nodes of the level, by their greatest keys.
pub(crate) fn parent_changes<'c>(
    alloc: Global,
    edit: &LevelEdit<'c>,
) -> Result<Vec<ItemChange<'c, Child<'c>>>, AllocError>
    ensures { (olds news : List Node)
        → StandForNodes edit.now.olds.items edit.now.news.items olds news
        → IfOk result (λ changes. TheyDiffer olds news (changes_meant link_of changes.items)) }
{
    let mut changes = Vec::new(alloc);
    let olds = edit.olds.as_slice();
    let mut done = 0;
    for new in &edit.news {
        let step = merge_step(&olds[done..], new);
        push_step_changes(&step, new, &mut changes)?;
        done += step.up_to;
    }
    push_gone(&olds[done..], &mut changes)?;
    Ok(changes)
}

/// Appends the changes of one step of the merge.
fn push_step_changes<'c>(
    step: &MergeStep<'_, 'c>,
    new: &NewPiece<'c>,
    changes: &mut Vec<ItemChange<'c, Child<'c>>>,
) -> Result<(), AllocError>
    ensures { (node : Node) → IsNewNode new.now node → OnOk result
        (changes_meant link_of changes.new.items ≡ changes_meant link_of changes.old.items
        ++ step_changes step.now.below.now step.now.is_new node) }
{
    push_gone(step.below, changes)?;
    if step.is_new {
        return push_put(new, changes);
    }
    Ok(())
}

/// Appends the changes that take these nodes away.
fn push_gone<'c>(
    olds: &[OldNode<'c>],
    changes: &mut Vec<ItemChange<'c, Child<'c>>>,
) -> Result<(), AllocError>
    ensures { OnOk result (changes_meant link_of changes.new.items
        ≡ changes_meant link_of changes.old.items ++ gone_changes olds.now) }
{
    for old in olds {
        changes.push(ItemChange {
            key: old.greatest,
            put: None,
        })?;
    }
    Ok(())
}

/// Appends the change that puts the item that stands for this node.
fn push_put<'c>(
    new: &NewPiece<'c>,
    changes: &mut Vec<ItemChange<'c, Child<'c>>>,
) -> Result<(), AllocError>
    ensures { (node : Node) → IsNewNode new.now node → OnOk result
        (changes_meant link_of changes.new.items
        ≡ changes_meant link_of changes.old.items ++ put node ∷ []) }
{
    changes.push(ItemChange {
        key: new.greatest,
        put: Some(new.child()),
    })?;
    Ok(())
}
