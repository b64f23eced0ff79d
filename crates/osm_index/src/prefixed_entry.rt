//! Entries as they are sorted.

ghost use Rattle.std.specs.Prelude.{◌≡◌, ◌↔◌, IsTrue, drop, slice_index};
ghost use Rattle.tree_node.specs.Nodes.{AreBytes};
ghost use Rattle.tree_node.specs.Order.{order};
ghost use Rattle.osm_index.specs.internal.PrefixedEntries.{IsByFirstBytes, IsByNextBytes, StartsWith, numbers_and_key, numbers_of};
ghost use Rattle.osm_index.specs.internal.Prefixes.{prefix_number};

use std::cmp::Ordering;
use tree_build::Entry;
use tree_node::is_below;

/// How many bytes one number holds.
const NUMBER_BYTES: usize = 8;

/// An entry beside sixteen bytes of its key, as two numbers: the first sixteen, or those after them. They mostly
/// decide the order of two entries, without a look at keys that lie far apart in memory.
#[derive(Clone, Copy)]
pub(crate) struct PrefixedEntry<'a> {
    high: u64,
    low: u64,
    pub(crate) item: Entry<'a>,
}

impl<'a> PrefixedEntry<'a> {
    /// This entry beside the first sixteen bytes of its key.
    pub(crate) fn by_first_bytes(item: Entry<'a>) -> PrefixedEntry<'a>
        ensures item { result.item ≡ item.entry }
        ensures numbers { IsByFirstBytes result }
    {
        PrefixedEntry::beside(item, item.key)
    }

    /// This entry beside the sixteen bytes after those.
    pub(crate) fn by_next_bytes(item: Entry<'a>) -> PrefixedEntry<'a>
        ensures item { result.item ≡ item.entry }
        ensures numbers { IsByNextBytes result }
    {
        PrefixedEntry::beside(item, after_prefix(after_prefix(item.key)))
    }

    /// This entry beside the first sixteen bytes of a part of its key.
    fn beside(item: Entry<'a>, part: &[u8]) -> PrefixedEntry<'a>
        ensures item { result.item ≡ item.entry }
        ensures numbers { StartsWith result.high result.low part.now }
        ensures bytes { AreBytes part.now }
    {
        PrefixedEntry {
            high: prefix_number(part),
            low: prefix_number(after_prefix(part)),
            item,
        }
    }

    /// Whether the numbers of two entries are the same.
    pub(crate) fn has_numbers_of(&self, other: &PrefixedEntry<'_>) -> bool
        ensures { IsTrue result ↔ (numbers_of self.now ≡ numbers_of other.now) }
    {
        self.high == other.high && self.low == other.low
    }

    /// How the numbers of two entries compare.
    pub(crate) fn compare_numbers(&self, other: &PrefixedEntry<'_>) -> Ordering
        ensures { result ≡ order (numbers_of self.now) (numbers_of other.now) }
    {
        if self.high != other.high {
            return self.high.cmp(&other.high);
        }
        self.low.cmp(&other.low)
    }

    /// How two entries compare by their numbers, and after equal ones by their keys.
    pub(crate) fn compare(&self, other: &PrefixedEntry<'_>) -> Ordering
        ensures { result ≡ order (numbers_and_key self.now) (numbers_and_key other.now) }
    {
        match self.compare_numbers(other) {
            Ordering::Equal => compare_keys(self.item.key, other.item.key),
            decided => decided,
        }
    }
}

/// The first eight bytes as a number, the first byte the highest, with zeros after a shorter key.
fn prefix_number(key: &[u8]) -> u64
    ensures number { result ≡ prefix_number key.now }
    ensures bytes { AreBytes key.now }
{
    if key.len() < NUMBER_BYTES {
        return u64::from_be_bytes([
            byte_at(key, 0),
            byte_at(key, 1),
            byte_at(key, 2),
            byte_at(key, 3),
            byte_at(key, 4),
            byte_at(key, 5),
            byte_at(key, 6),
            byte_at(key, 7),
        ]);
    }
    u64::from_be_bytes([
        key[0], key[1], key[2], key[3], key[4], key[5], key[6], key[7],
    ])
}

/// The byte at this place, and 0 after the end.
fn byte_at(key: &[u8], place: usize) -> u8
    ensures { result ≡ slice_index key.now place }
{
    match key.get(place) {
        Some(byte) => *byte,
        None => 0,
    }
}

/// What follows the first eight bytes.
fn after_prefix(key: &[u8]) -> &[u8]
    ensures { result.now ≡ drop 8 key.now }
{
    &key[NUMBER_BYTES.min(key.len())..]
}

/// The order of two keys, by which of them is below the other.
fn compare_keys(first: &[u8], second: &[u8]) -> Ordering
    ensures { result ≡ order first.now second.now }
{
    if is_below(first, second) {
        return Ordering::Less;
    }
    if is_below(second, first) {
        return Ordering::Greater;
    }
    Ordering::Equal
}
