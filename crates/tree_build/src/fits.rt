//! Whether items fit into a tree.

ghost use Rattle.std.specs.List.{AllByRecursion};
ghost use Rattle.std.specs.Prelude.{◌≡◌, ◌≤◌, ◌<◌, ◌+◌, ◌++◌, ◌↔◌, IfNone, IfSome, IsTrue, length, map, sum_by};
ghost use Rattle.tree_build.specs.internal.Building.{AreWithin};
ghost use Rattle.tree_build.specs.internal.LeafItems.{entry_of};
ghost use Rattle.tree_node.specs.NodeRefs.{links_of};
ghost use Rattle.tree_node.specs.Nodes.{Link};
ghost use Rattle.tree_node.specs.declared.limits.TheConstants.{KEY_LIMIT};
ghost use Rattle.tree_node.specs.Trees.{FitsTree};

use crate::leaf_item::LeafItem;
use tree_node::{Child, ENTRY_LIMIT, KEY_LIMIT, VALUE_LIMIT};

/// Whether the keys and values of entries are within the limits.
pub(crate) fn all_fit(items: &[LeafItem<'_>]) -> bool
    ensures { IsTrue result ↔ AllByRecursion FitsTree (map entry_of items.now) }
{
    for item in items {
        if item.entry.key.len() > KEY_LIMIT || item.entry.value.len() > VALUE_LIMIT {
            return false;
        }
    }
    true
}

/// Whether the greatest keys of children are within the limit, and few enough entries below all of them.
pub(crate) fn are_within(before: &[Child<'_>], items: &[Child<'_>]) -> bool
    ensures { IsTrue result ↔ AreWithin (links_of before.now ++ links_of items.now) }
{
    if !have_keys(before) || !have_keys(items) {
        return false;
    }
    match room_after(ENTRY_LIMIT as u64, before) {
        Some(room) => room_after(room, items).is_some(),
        None => false,
    }
}

/// Whether the greatest keys of children are within the limit.
fn have_keys(children: &[Child<'_>]) -> bool
    ensures { IsTrue result ↔ AllByRecursion (λ (link : Link). length link.greatest ≤ KEY_LIMIT)
        (links_of children.now) }
{
    for child in children {
        if child.greatest.len() > KEY_LIMIT {
            return false;
        }
    }
    true
}

/// How many entries there is room for after those below these children; none where there isn't room for them.
fn room_after(room: u64, children: &[Child<'_>]) -> Option<u64>
    ensures some { IfSome result (λ left.
        left + sum_by (λ (link : Link). link.number) (links_of children.now) ≡ room) }
    ensures none { IfNone result
        (room < sum_by (λ (link : Link). link.number) (links_of children.now)) }
{
    let mut left = room;
    for child in children {
        if child.number > left {
            return None;
        }
        left -= child.number;
    }
    Some(left)
}
