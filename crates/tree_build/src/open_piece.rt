//! Making new nodes: cutting on from what is pending.

ghost use Rattle.std.specs.Prelude.{◌≡◌, ◌++◌, ◌∷◌, ◌≤◌, ◌<◌, [], IfOk, OnOk, length, map};
ghost use Rattle.tree_build.specs.internal.Cutting.{done_by, pending_after};
ghost use Rattle.tree_build.specs.internal.Edits.{HaveCome, IsNewNode};
ghost use Rattle.tree_node.specs.declared.limits.TheConstants.{ITEM_LIMIT};
ghost use Rattle.tree_node.specs.NodeRefs.{number_of};
ghost use Rattle.tree_node.specs.Trees.{Two, ends_by, pieces_from};

use crate::cut::ends_after;
use crate::level_item::LevelItem;
use crate::piece::NewPiece;
use crate::shape::Shape;
use std::alloc::{AllocError, Global};
use tree_node::{NewNode, Tree};

/// Adds the items to the pending ones, one after the other, and makes the nodes of the pieces that end. Where they end,
/// the items tell.
pub(crate) fn cut<'c, T: LevelItem<'c>>(
    alloc: Global,
    tree: Tree,
    level: u8,
    items: &[T],
    pending: &mut Vec<T>,
    news: &mut Vec<NewPiece<'c>>,
) -> Result<(), AllocError>
    requires few { length pending.old.items < ITEM_LIMIT }
    requires fit { T.Fit (map T.meaning (pending.old.items ++ items.now)) }
    ensures news { OnOk result (HaveCome news.old.items news.new.items
        (map (λ piece. T.node_over (number_of tree) level (map T.meaning piece))
        (done_by (ends_by Two T.marked) pending.old.items items.now))) }
    ensures pending { OnOk result (pending.new.items
        ≡ pending_after (ends_by Two T.marked) pending.old.items items.now) }
    ensures few { OnOk result (length pending.new.items < ITEM_LIMIT) }
{
    for item in items {
        cut_one(alloc, tree, level, item, pending, news)?;
    }
    Ok(())
}

/// Adds the item to the pending ones, and makes the node of the piece where it ends there.
fn cut_one<'c, T: LevelItem<'c>>(
    alloc: Global,
    tree: Tree,
    level: u8,
    item: &T,
    pending: &mut Vec<T>,
    news: &mut Vec<NewPiece<'c>>,
) -> Result<(), AllocError>
    requires few { length pending.old.items < ITEM_LIMIT }
    requires fit { T.Fit (map T.meaning (pending.old.items ++ item.now ∷ [])) }
    ensures news { OnOk result (HaveCome news.old.items news.new.items
        (map (λ piece. T.node_over (number_of tree) level (map T.meaning piece))
        (done_by (ends_by Two T.marked) pending.old.items (item.now ∷ [])))) }
    ensures pending { OnOk result (pending.new.items
        ≡ pending_after (ends_by Two T.marked) pending.old.items (item.now ∷ [])) }
    ensures few { OnOk result (length pending.new.items < ITEM_LIMIT) }
{
    pending.push(*item)?;
    if ends_after(item, pending.len(), Shape::Two) {
        push_node(alloc, tree, level, pending, news)?;
    }
    Ok(())
}

/// Makes the node of the pending items, where there are any: the last piece of its level.
pub(crate) fn close<'c, T: LevelItem<'c>>(
    alloc: Global,
    tree: Tree,
    level: u8,
    pending: &mut Vec<T>,
    news: &mut Vec<NewPiece<'c>>,
) -> Result<(), AllocError>
    requires few { length pending.old.items < ITEM_LIMIT }
    requires fit { T.Fit (map T.meaning pending.old.items) }
    ensures news { OnOk result (HaveCome news.old.items news.new.items
        (map (T.node_over (number_of tree) level)
        (pieces_from (ends_by Two T.marked_in) (map T.meaning pending.old.items) []))) }
    ensures pending { OnOk result (pending.new.items ≡ []) }
{
    if pending.is_empty() {
        return Ok(());
    }
    push_node(alloc, tree, level, pending, news)
}

/// Makes the node of the pending items, and leaves none.
fn push_node<'c, T: LevelItem<'c>>(
    alloc: Global,
    tree: Tree,
    level: u8,
    pending: &mut Vec<T>,
    news: &mut Vec<NewPiece<'c>>,
) -> Result<(), AllocError>
    requires few { length pending.old.items ≤ ITEM_LIMIT }
    requires fit { T.Fit (map T.meaning pending.old.items) }
    ensures news { OnOk result (HaveCome news.old.items news.new.items
        (T.node_over (number_of tree) level (map T.meaning pending.old.items) ∷ [])) }
    ensures pending { OnOk result (pending.new.items ≡ []) }
{
    news.push(make_node(alloc, tree, level, pending.as_slice())?)?;
    pending.clear();
    Ok(())
}

/// The node of this tree and level with these items.
pub(crate) fn make_node<'c, T: LevelItem<'c>>(
    alloc: Global,
    tree: Tree,
    level: u8,
    items: &[T],
) -> Result<NewPiece<'c>, AllocError>
    requires few { length items.now ≤ ITEM_LIMIT }
    requires fit { T.Fit (map T.meaning items.now) }
    ensures { IfOk result (λ new. IsNewNode new
        (T.node_over (number_of tree) level (map T.meaning items.now))) }
{
    let bytes = T::bytes_of(alloc, tree, level, items)?;
    Ok(NewPiece {
        node: NewNode::new(bytes),
        greatest: T::greatest(items),
        number: T::number(items),
    })
}
