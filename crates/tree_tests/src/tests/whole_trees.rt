//! Trees of lists that are built as a whole, with which others are compared.

ghost use Rattle.std.specs.Prelude.{IsTrue};
ghost use Rattle.tree_node.specs.NodeRefs.{bindings_of};
ghost use Rattle.tree_node.specs.Trees.{HasTree};

use std::alloc::{AllocError, Global};
use std::test::Fail;
use tree_build::{Entry, Shape, build};
use tree_node::{Digest, ENTRY_LIMIT, KEY_LIMIT, Stock, Tree, VALUE_LIMIT, is_above};

/// Whether the entries have a tree.
pub(super) fn has_tree(entries: &[Entry<'_>]) -> bool
    ensures { IsTrue result → HasTree (bindings_of entries.now) }
{
    let mut last: Option<&[u8]> = None;
    for entry in entries {
        if entry.key.len() > KEY_LIMIT || entry.value.len() > VALUE_LIMIT {
            return false;
        }
        if !is_above(last, entry.key) {
            return false;
        }
        last = Some(entry.key);
    }
    entries.len() <= ENTRY_LIMIT
}

/// The tree of these entries, which have one.
pub(super) fn built(
    alloc: Global,
    entries: &[Entry<'_>],
    tree: Tree,
    shape: Shape,
    stock: &mut Stock,
) -> Result<Digest, Fail> {
    if !has_tree(entries) {
        return Err(Fail::from("the entries have no tree"));
    }
    Ok(build(alloc, entries, tree, shape, stock)?)
}

/// The numbers from 0, this many of them, in eight bytes each.
pub(super) fn numbers(alloc: Global, count: u64) -> Result<Vec<u8>, AllocError> {
    let mut bytes = Vec::new(alloc);
    for number in 0..count {
        bytes.extend_from_slice(&number.to_be_bytes())?;
    }
    Ok(bytes)
}

/// The entries with these keys of eight bytes, each with its key as its value.
pub(super) fn entries_of(alloc: Global, keys: &[u8]) -> Result<Vec<Entry<'_>>, AllocError> {
    let mut entries = Vec::new(alloc);
    for key in keys.chunks(8) {
        entries.push(Entry { key, value: key })?;
    }
    Ok(entries)
}
