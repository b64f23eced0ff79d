//! Changing the items of a piece.

ghost use Rattle.std.specs.List.{AllByRecursion};
ghost use Rattle.std.specs.Prelude.{◌≡◌, ◌++◌, ◌∷◌, [], ℕ, List, IfOk, OnOk, map};
ghost use Rattle.tree_node.specs.Order.{IsBelow};
ghost use Rattle.tree_build.specs.internal.ItemChanges.{changes_in};
ghost use Rattle.tree_build.specs.Changing.{Change, changed, changed_once, one_or_none};
ghost use Rattle.tree_build.specs.internal.RisingChanges.{AreOwnAndRising};

use crate::level_item::{ItemChange, LevelItem};
use std::alloc::{AllocError, Global};
use tree_node::is_below;

/// The items before this key, and those after it.
pub(crate) fn split_at_key<'x, 's, T: LevelItem<'x>>(
    items: &'s [T],
    key: &[u8],
) -> (&'s [T], &'s [T])
    ensures below { AllByRecursion (λ item. IsBelow (T.key_of item) key.now) result.0.now }
    ensures changed { (change : Change _) → change.key ≡ key.now
        → changed_once T.key_of items.now change
        ≡ result.0.now ++ (one_or_none change.put ++ result.1.now) }
{
    let mut at = 0;
    for item in items {
        if !is_below(item.key(), key) {
            if is_below(key, item.key()) {
                return (&items[..at], &items[at..]);
            }
            return (&items[..at], &items[at + 1..]);
        }
        at += 1;
    }
    (items, &[])
}

/// Puts the item, where there is one, after the others.
fn push_some<T: Copy>(items: &mut Vec<T>, item: Option<T>) -> Result<(), AllocError>
    ensures { OnOk result (items.new.items ≡ items.old.items ++ one_or_none item) }
{
    if let Some(item) = item {
        items.push(item)?;
    }
    Ok(())
}

/// The items after the changes.
pub(crate) fn merge<'x, T: LevelItem<'x>>(
    alloc: Global,
    items: &[T],
    changes: &[ItemChange<'x, T>],
) -> Result<Vec<T>, AllocError>
    requires { AreOwnAndRising T.key_of (changes_in changes.now) }
    ensures { IfOk result
        (λ merged. merged.items ≡ changed T.key_of items.now (changes_in changes.now)) }
{
    let mut merged = Vec::new(alloc);
    let mut rest = items;
    for change in changes {
        let (before, after) = split_at_key(rest, change.key);
        merged.extend_from_slice(before)?;
        push_some(&mut merged, change.put)?;
        rest = after;
    }
    merged.extend_from_slice(rest)?;
    Ok(merged)
}
