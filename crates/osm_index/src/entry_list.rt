//! The entries of a tree, packed.

ghost use Rattle.std.specs.List.{AllAdjacentBelow, Contains};
ghost use Rattle.std.specs.Prelude.{◌≡◌, ◌↔◌, IfOk, IsTrue, length};
ghost use Rattle.tree_node.specs.NodeRefs.{bindings_of};
ghost use Rattle.tree_node.specs.Nodes.{AreRisingFrom, Binding, keys_of};
ghost use Rattle.tree_node.specs.Order.{IsBelow};
ghost use Rattle.osm_index.specs.EntryLists.{IsKeyed, cut, packed_len};

use crate::sort_entries::sort_entries;
use std::alloc::{AllocError, Global};
use std::marker::Model;
use tree_build::Entry;
use tree_node::is_below;

/// The lengths of the key and the value of an entry.
#[derive(Clone, Copy, Debug)]
pub(crate) struct Span {
    pub(crate) key: u32,
    pub(crate) value: u32,
}

/// The entries of a tree as they were met, object by object: keys and values one after the other in one
/// buffer. Contracts see the list of them.
#[derive(Debug, Drop)]
pub struct EntryList {
    bytes: Vec<u8>,
    spans: Vec<Span>,
}

impl Model for EntryList {
    ghost use Rattle.std.specs.Prelude.{◌≡◌, List, length};
    ghost use Rattle.tree_node.specs.Nodes.{Binding};
    ghost use Rattle.osm_index.specs.EntryLists.{cut, packed_len};

    ghost Value = { List Binding };

    ghost view = { λ a. cut a.spans.items a.bytes.items };

    ghost invariant = { λ a. length a.bytes.items ≡ packed_len a.spans.items };
}

impl EntryList {
    /// The entries of these lengths that are packed in the bytes.
    pub(crate) fn new(bytes: Vec<u8>, spans: Vec<Span>) -> EntryList
        requires { length bytes.items ≡ packed_len spans.items }
        ensures { result ≡ cut spans.items bytes.items }
    {
        EntryList { bytes, spans }
    }

    /// The entries by rising key, each once, as slices of this list. They are sorted in n log n where
    /// they don't rise already; equal entries come once. It takes the memory of two slices an entry, and while it
    /// sorts 48 bytes more an entry, and as much again for those of the longest run of keys with one start.
    pub fn sorted(&self, alloc: Global) -> Result<Vec<Entry<'_>>, AllocError>
        // The keys strictly rise,
        ensures rising { IfOk result
            (λ entries. AreRisingFrom None (keys_of (bindings_of entries.items))) }
        // and where no two entries of the list have one key but equal ones, they are those of the list.
        ensures members { IsKeyed self.now → IfOk result (λ entries.
            (b : Binding) → Contains (bindings_of entries.items) b ↔ Contains self.now b) }
    {
        let mut entries = lend(alloc, &self.bytes, &self.spans)?;
        if !keys_rise(&entries) {
            sort_entries(alloc, &mut entries)?;
        }
        Ok(entries)
    }
}

/// The entries of these lengths, as slices of the bytes.
fn lend<'a>(alloc: Global, bytes: &'a [u8], spans: &[Span]) -> Result<Vec<Entry<'a>>, AllocError>
    requires { length bytes.now ≡ packed_len spans.now }
    ensures { IfOk result (λ entries. bindings_of entries.items ≡ cut spans.now bytes.now) }
{
    let mut entries = Vec::with_capacity(alloc, spans.len())?;
    let mut rest = bytes;
    for span in spans {
        let (key, after) = rest.split_at(span.key as usize);
        let (value, after) = after.split_at(span.value as usize);
        entries.push(Entry { key, value })?;
        rest = after;
    }
    Ok(entries)
}

/// Whether each key is below the next.
fn keys_rise(entries: &[Entry<'_>]) -> bool
    ensures { IsTrue result
        → AllAdjacentBelow
        (λ first second. IsBelow first.key.now second.key.now) entries.now (length entries.now) }
{
    for i in 1..entries.len() {
        if !is_below(entries[i - 1].key, entries[i].key) {
            return false;
        }
    }
    true
}
