//! Sorting entries by their keys.

ghost use Rattle.std.specs.List.{All};
ghost use Rattle.std.specs.List.Sorted.{IsSortedByKey};
ghost use Rattle.std.specs.Prelude.{◌≡◌, ◌≤◌, ◌++◌, IfOk, OnOk, length};
ghost use Rattle.tree_node.specs.Order.{order};
ghost use Rattle.osm_index.specs.internal.PrefixedEntries.{IsByFirstBytes, IsRun, IsByNextBytes, items_of, numbers_of};
ghost use Rattle.osm_index.specs.internal.KeyOrder.{AppendsInOrder, HaveOneStart, IsInOrder};

use crate::prefixed_entry::PrefixedEntry;
use std::alloc::{AllocError, Global};
use tree_build::Entry;

/// Puts entries in the order of their keys, and of those with one key one alone.
///
/// They are sorted by the first sixteen bytes of their keys, and then run by run, where these are the same, by the
/// sixteen bytes after them and what follows. So keys that lie far apart in memory are read about twice each, where
/// a sort by whole keys reads them at each comparison of keys that start alike, as those of one tag do.
pub(crate) fn sort_entries(alloc: Global, entries: &mut Vec<Entry<'_>>) -> Result<(), AllocError>
    ensures { OnOk result (IsInOrder entries.old.items entries.new.items) }
{
    let mut prefixed = with_prefixes(alloc, entries)?;
    prefixed.sort_unstable_by(|first, second| first.compare_numbers(second));
    entries.clear();
    append_runs(alloc, &prefixed, entries)
}

/// Appends entries that are sorted by the first sixteen bytes of their keys, in the order of whole keys.
fn append_runs<'a>(
    alloc: Global,
    prefixed: &[PrefixedEntry<'a>],
    entries: &mut Vec<Entry<'a>>,
) -> Result<(), AllocError>
    requires { IsSortedByKey numbers_of order prefixed.now }
    ensures { All IsByFirstBytes prefixed.now
        → OnOk result (AppendsInOrder (items_of prefixed.now) entries.old.items entries.new.items) }
{
    let mut buffer = Vec::new(alloc);
    let mut start = 0;
    'runs: while start < prefixed.len() {
        let rest = &prefixed[start..];
        let len = run_len(rest);
        append_run(&rest[..len], &mut buffer, entries)?;
        start += len;
    }
    Ok(())
}

/// Each entry beside the start of its key.
fn with_prefixes<'a>(
    alloc: Global,
    entries: &[Entry<'a>],
) -> Result<Vec<PrefixedEntry<'a>>, AllocError>
    ensures items { IfOk result (λ prefixed. items_of prefixed.items ≡ entries.now) }
    ensures first { IfOk result (λ prefixed. All IsByFirstBytes prefixed.items) }
{
    let mut prefixed = Vec::with_capacity(alloc, entries.len())?;
    for entry in entries {
        prefixed.push(PrefixedEntry::by_first_bytes(*entry))?;
    }
    Ok(prefixed)
}

/// How many entries from the first one on have its numbers.
fn run_len(rest: &[PrefixedEntry<'_>]) -> usize
    requires { 1 ≤ length rest.now }
    ensures { IsRun rest.now result }
{
    let mut len = 1;
    'growing: while len < rest.len() && rest[len].has_numbers_of(&rest[0]) {
        len += 1;
    }
    len
}

/// Appends the entries of a run, whose keys have one start, in the order of these. `buffer` lends its room.
fn append_run<'a>(
    run: &[PrefixedEntry<'a>],
    buffer: &mut Vec<PrefixedEntry<'a>>,
    entries: &mut Vec<Entry<'a>>,
) -> Result<(), AllocError>
    ensures { HaveOneStart run.now
        → OnOk result (AppendsInOrder (items_of run.now) entries.old.items entries.new.items) }
{
    if run.len() == 1 {
        return append_items(run, entries);
    }
    fill_by_next_bytes(run, buffer)?;
    buffer.sort_unstable_by(|first, second| first.compare(second));
    buffer.dedup_by(|second, first| second.item.key == first.item.key);
    append_items(buffer, entries)
}

/// Puts each entry of a run beside the bytes after the start of its key.
fn fill_by_next_bytes<'a>(
    run: &[PrefixedEntry<'a>],
    buffer: &mut Vec<PrefixedEntry<'a>>,
) -> Result<(), AllocError>
    ensures items { OnOk result (items_of buffer.new.items ≡ items_of run.now) }
    ensures second { OnOk result (All IsByNextBytes buffer.new.items) }
{
    buffer.clear();
    for entry in run {
        buffer.push(PrefixedEntry::by_next_bytes(entry.item))?;
    }
    Ok(())
}

/// Appends these entries.
fn append_items<'a>(
    prefixed: &[PrefixedEntry<'a>],
    entries: &mut Vec<Entry<'a>>,
) -> Result<(), AllocError>
    ensures { OnOk result (entries.new.items ≡ entries.old.items ++ items_of prefixed.now) }
{
    for entry in prefixed {
        entries.push(entry.item)?;
    }
    Ok(())
}
