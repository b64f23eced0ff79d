//! The entries of a tree, packed, as `osm_index::EntryList`, which another crate can't make. They are sorted by whole
//! keys.

ghost use Rattle.std.specs.List.{AllAdjacentBelow, Contains, dedup};
ghost use Rattle.std.specs.List.Sorted.{IsPermutation, IsSortedByKey};
ghost use Rattle.std.specs.Prelude.{◌≡◌, ◌↔◌, IfOk, IsTrue, bytes_eq, length};
ghost use Rattle.tree_node.specs.NodeRefs.{bindings_of};
ghost use Rattle.tree_node.specs.Nodes.{AreRisingFrom, Binding, keys_of};
ghost use Rattle.tree_node.specs.Order.{IsBelow, order};
ghost use Rattle.osm_index.specs.EntryLists.{IsKeyed};
ghost use Rattle.light_index.specs.LightEntryLists.{cut, packed_len};

use std::alloc::{AllocError, Global};
use std::marker::Model;
use tree_build::Entry;
use tree_node::is_below;

/// The lengths of the key and the value of an entry.
#[derive(Clone, Copy, Debug)]
pub(crate) struct LightSpan {
    pub(crate) key: u32,
    pub(crate) value: u32,
}

/// The entries of a tree as they were met, object by object: keys and values one after the other in one buffer.
/// Contracts see the list of them.
#[derive(Debug, Drop)]
pub struct LightEntryList {
    bytes: Vec<u8>,
    spans: Vec<LightSpan>,
}

impl Model for LightEntryList {
    ghost use Rattle.std.specs.Prelude.{◌≡◌, List, length};
    ghost use Rattle.tree_node.specs.Nodes.{Binding};
    ghost use Rattle.light_index.specs.LightEntryLists.{cut, packed_len};

    ghost Value = { List Binding };

    ghost view = { λ a. cut a.spans.items a.bytes.items };

    ghost invariant = { λ a. length a.bytes.items ≡ packed_len a.spans.items };
}

impl LightEntryList {
    /// The entries of these lengths that are packed in the bytes.
    pub(crate) fn new(bytes: Vec<u8>, spans: Vec<LightSpan>) -> LightEntryList
        requires { length bytes.items ≡ packed_len spans.items }
        ensures { result ≡ cut spans.items bytes.items }
    {
        LightEntryList { bytes, spans }
    }

    /// The entries by rising key, each once, as slices of this list. They are sorted in n log n where they don't rise
    /// already; equal entries come once. It takes the memory of two slices an entry.
    pub fn sorted(&self, alloc: Global) -> Result<Vec<Entry<'_>>, AllocError>
        // The keys strictly rise,
        ensures rising { IfOk result
            (λ entries. AreRisingFrom None (keys_of (bindings_of entries.items))) }
        // and where no two entries of the list have one key but equal ones, they are those of the list.
        ensures members { IsKeyed self.now → IfOk result (λ entries.
            (b : Binding) → Contains (bindings_of entries.items) b ↔ Contains self.now b) }
    {
        let mut entries = lend(alloc, &self.bytes, &self.spans)?;
        if !keys_rise(&entries) {
            sort_by_keys(&mut entries);
            drop_repeats(&mut entries);
        }
        Ok(entries)
    }
}

/// The entries of these lengths, as slices of the bytes.
fn lend<'a>(
    alloc: Global,
    bytes: &'a [u8],
    spans: &[LightSpan],
) -> Result<Vec<Entry<'a>>, AllocError>
    requires { length bytes.now ≡ packed_len spans.now }
    ensures { IfOk result (λ entries. bindings_of entries.items ≡ cut spans.now bytes.now) }
{
    let mut entries = Vec::with_capacity(alloc, spans.len())?;
    let mut rest = bytes;
    for span in spans {
        let (key, after) = rest.split_at(span.key as usize);
        let (value, after) = after.split_at(span.value as usize);
        entries.push(Entry { key, value })?;
        rest = after;
    }
    Ok(entries)
}

/// Whether each key is below the next.
fn keys_rise(entries: &[Entry<'_>]) -> bool
    ensures { IsTrue result
        → AllAdjacentBelow
        (λ first second. IsBelow first.key.now second.key.now) entries.now (length entries.now) }
{
    for i in 1..entries.len() {
        if !is_below(entries[i - 1].key, entries[i].key) {
            return false;
        }
    }
    true
}

/// Sorts entries by their keys.
fn sort_by_keys(entries: &mut Vec<Entry<'_>>)
    ensures permutation { IsPermutation entries.old.items entries.new.items }
    ensures sorted { IsSortedByKey (λ entry. entry.key.now) order entries.new.items }
{
    entries.sort_unstable_by(|first, second| first.key.cmp(second.key));
}

/// Drops each entry that has the key of the one before it.
fn drop_repeats(entries: &mut Vec<Entry<'_>>)
    ensures { entries.new.items
        ≡ dedup (λ second first. bytes_eq second.key.now first.key.now) entries.old.items }
{
    entries.dedup_by(|second, first| second.key == first.key);
}
