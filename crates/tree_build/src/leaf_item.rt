//! The items of leaves.

ghost use Rattle.std.specs.List.{AllByRecursion};
ghost use Rattle.std.specs.Prelude.{◌≡◌, ◌+◌, ◌<◌, ◌↔◌, IfOk, IsTrue, false, map};
ghost use Rattle.tree_build.specs.Cuts.{EndsNoSooner};
ghost use Rattle.tree_build.specs.internal.LeafItems.{KnowsItsMark, mark_told};
ghost use Rattle.tree_node.specs.NodeRefs.{binding_of, bindings_of};
ghost use Rattle.tree_node.specs.Trees.{Two, is_marked_entry};

use crate::Entry;
use crate::cut::Cut;
use std::alloc::{AllocError, Global};
use tree_node::Entries;

/// An entry as an item of the leaf level.
#[derive(Clone, Copy)]
pub(crate) struct LeafItem<'x> {
    pub(crate) entry: Entry<'x>,
    /// Whether the entry lies between others of its old leaf. It isn't marked then, if that is a leaf of a tree: a
    /// marked entry would have ended it. A digest of the key is saved.
    pub(crate) known_unmarked: bool,
}

impl<'x> LeafItem<'x> {
    /// The entry, of whose mark nothing is known.
    pub(crate) fn new(entry: Entry<'x>) -> LeafItem<'x>
        ensures entry { result.entry ≡ entry.entry }
        ensures known { result.known_unmarked ≡ false }
    {
        LeafItem {
            entry,
            known_unmarked: false,
        }
    }
}

impl<'x> Cut for LeafItem<'x> {
    ghost marked = { mark_told };

    /// It digests the key where nothing is known.
    fn is_marked(&self) -> bool {
        if self.known_unmarked {
            return false;
        }
        self.entry.is_marked()
    }
}

/// The items of an old leaf. Those between the first and the last are taken to be unmarked.
pub(crate) fn old_items<'x>(
    alloc: Global,
    entries: Entries<'x>,
) -> Result<Vec<LeafItem<'x>>, AllocError>
    ensures items { IfOk result
        (λ items. map (λ item. binding_of item.entry) items.items ≡ entries.entry) }
    ensures known { EndsNoSooner Two is_marked_entry entries.entry
        → IfOk result (λ items. AllByRecursion KnowsItsMark items.items) }
{
    let number = entries.number() as usize;
    let mut items = Vec::with_capacity(alloc, number)?;
    for entry in entries {
        let known_unmarked = is_between(items.len(), number);
        items.push(LeafItem {
            entry,
            known_unmarked,
        })?;
    }
    Ok(items)
}

/// Whether the place is one between the first and the last of so many.
fn is_between(place: usize, number: usize) -> bool
    ensures { IsTrue result ↔ ((0 < place) × (place + 1 < number)) }
{
    place > 0 && number > 0 && place < number - 1
}

/// The entries of these items.
pub(crate) fn entries_of<'x>(
    alloc: Global,
    items: &[LeafItem<'x>],
) -> Result<Vec<Entry<'x>>, AllocError>
    ensures { IfOk result
        (λ entries. bindings_of entries.items ≡ map (λ item. binding_of item.entry) items.now) }
{
    let mut entries = Vec::with_capacity(alloc, items.len())?;
    for item in items {
        entries.push(item.entry)?;
    }
    Ok(entries)
}
