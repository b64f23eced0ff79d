//! How the entries of a tree change.

ghost use Rattle.std.specs.Prelude.{◌≡◌, ◌++◌, IfOk, None, OnOk, map};
ghost use Rattle.std.specs.Option.{option_map};
ghost use Rattle.tree_build.specs.Rebuilding.{change_of, changes_of};
ghost use Rattle.tree_node.specs.NodeRefs.{binding_of, bindings_of};
ghost use Rattle.tree_node.specs.Nodes.{AreRisingFrom, keys_of};
ghost use Rattle.osm_index.specs.internal.EntryChanges.{TurnEntries, change_between, parts_at_key, put_of};

use std::alloc::{AllocError, Global};
use tree_build::{Entry, EntryChange};
use tree_node::is_below;

/// The changes that turn the old entries into the new ones, by rising key; an entry that stays is none. The
/// keys of both lists rise. Linear in both.
pub(crate) fn entry_changes(
    alloc: Global,
    old: &[Entry<'_>],
    new: &[Entry<'_>],
) -> Result<Vec<EntryChange>, AllocError>
    requires old { AreRisingFrom None (keys_of (bindings_of old.now)) }
    requires new { AreRisingFrom None (keys_of (bindings_of new.now)) }
    ensures { IfOk result
        (λ changes. TurnEntries (bindings_of old.now) (bindings_of new.now) (changes_of changes.items)) }
{
    let mut changes = Vec::new(alloc);
    let mut at = 0;
    for entry in old {
        let (below, same) = split_at_key(&new[at..], entry.key);
        put_all(alloc, below, &mut changes)?;
        change_entry(alloc, entry, same, &mut changes)?;
        at += below.len() + usize::from(same.is_some());
    }
    put_all(alloc, &new[at..], &mut changes)?;
    Ok(changes)
}

/// The entries below a key, and the one with the key that may follow them, where the keys rise.
fn split_at_key<'a, 'e>(
    entries: &'e [Entry<'a>],
    key: &[u8],
) -> (&'e [Entry<'a>], Option<Entry<'a>>)
    ensures { (bindings_of result.0.now, option_map binding_of result.1)
        ≡ parts_at_key key.now (bindings_of entries.now) }
{
    let mut at = 0;
    for entry in entries {
        if !is_below(entry.key, key) {
            if is_below(key, entry.key) {
                return (&entries[..at], None);
            }
            return (&entries[..at], Some(*entry));
        }
        at += 1;
    }
    (entries, None)
}

/// Changes an old entry into the new one with its key, or takes it away where there is none.
fn change_entry(
    alloc: Global,
    old: &Entry<'_>,
    new: Option<Entry<'_>>,
    changes: &mut Vec<EntryChange>,
) -> Result<(), AllocError>
    ensures { OnOk result (changes_of changes.new.items
        ≡ changes_of changes.old.items
        ++ change_between (binding_of old.now) (option_map binding_of new.entry)) }
{
    match new {
        Some(new) => {
            if new.value != old.value {
                changes.push(put(alloc, &new)?)?;
            }
        }
        None => {
            let key = Vec::from_slice(alloc, old.key)?;
            changes.push(EntryChange { key, value: None })?;
        }
    }
    Ok(())
}

/// Puts all of these entries.
fn put_all(
    alloc: Global,
    entries: &[Entry<'_>],
    changes: &mut Vec<EntryChange>,
) -> Result<(), AllocError>
    ensures { OnOk result (changes_of changes.new.items
        ≡ changes_of changes.old.items ++ map put_of (bindings_of entries.now)) }
{
    for entry in entries {
        changes.push(put(alloc, entry)?)?;
    }
    Ok(())
}

/// The change that puts an entry.
fn put(alloc: Global, entry: &Entry<'_>) -> Result<EntryChange, AllocError>
    ensures { IfOk result (λ change. change_of change ≡ put_of (binding_of entry.now)) }
{
    Ok(EntryChange {
        key: Vec::from_slice(alloc, entry.key)?,
        value: Some(Vec::from_slice(alloc, entry.value)?),
    })
}
