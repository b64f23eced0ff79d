//! Giving the records of one sorter to a sink.

ghost use Rattle.std.specs.Prelude.{◌≡◌, ◌≢◌, ◌<◌, ◌≤◌, ◌++◌, ◌^◌, Err, IfErr, List, None, OnOk, Option, Some, [], false, length, true, ℕ};
ghost use Rattle.osm_keys.specs.Entries.{AreEntriesOf};
ghost use Rattle.osm_keys.specs.Grains.{Whole};
ghost use Rattle.osm_keys.specs.Publications.{HasTooMany};
ghost use Rattle.osm_model.specs.Elements.{Element};
ghost use Rattle.osm_model.specs.Sets.{IsObjectSet};
ghost use Rattle.tree_node.specs.declared.limits.TheConstants.{ENTRY_LIMIT};
ghost use Rattle.tree_node.specs.declared.tree.Tree.{Tree as TreeWord};
ghost use Rattle.external_sort.specs.Records.{Entry};
ghost use Rattle.external_sort.specs.Sorting.{Gives, current};
ghost use Rattle.entry_sort.specs.Holding.{HoldsTree};
ghost use Rattle.entry_sort.specs.internal.Once.{added, is_new, key_after, once_from};

use crate::entry_sink::{EntrySink, SinkFault};
use crate::last_key::LastKey;
use external_sort::{RunStore, SortFault, Sorted, Sorter};
use std::alloc::Global;
use tree_node::Tree;

/// Gives the records of a sorter to the sink as the entries of a tree of a set of so many objects.
pub(crate) fn give_tree<S: RunStore, E: EntrySink>(
    alloc: Global,
    sorter: Sorter<S>,
    tree: Tree,
    objects: u64,
    sink: &mut E,
) -> Result<(), SinkFault>
    ensures taken { S.is_true ≡ true → (set : List Element) → IsObjectSet set →
        HoldsTree S.runs S.in_hand sorter set tree → E.taken sink.old tree ≡ [] →
        OnOk result (AreEntriesOf Whole set tree (E.taken sink.new tree)) }
    ensures others { OnOk result ((other : TreeWord) → other ≢ tree →
        E.taken sink.new other ≡ E.taken sink.old other) }
    ensures same { OnOk result (E.is_same sink.old sink.new) }
    ensures many { S.is_true ≡ true → (set : List Element) → IsObjectSet set →
        HoldsTree S.runs S.in_hand sorter set tree → E.taken sink.old tree ≡ [] →
        result ≡ Err SinkFault.TooMany → HasTooMany set }
    ensures device { S.may_refuse ≡ false → S.is_true ≡ true → E.may_refuse ≡ false → (set : List Element) →
        HoldsTree S.runs S.in_hand sorter set tree → result ≢ Err SinkFault.Device }
{
    sink.begin(tree, objects);
    match sorter.finish() {
        Ok(mut sorted) => give_sorted(alloc, &mut sorted, tree, sink),
        Err(fault) => Err(sink_fault(fault)),
    }
}

/// Gives the records that are left to the sink as the entries of a tree, those with one key once.
fn give_sorted<S: RunStore, E: EntrySink>(
    alloc: Global,
    sorted: &mut Sorted<S>,
    tree: Tree,
    sink: &mut E,
) -> Result<(), SinkFault>
    ensures taken { S.is_true ≡ true → (given : List Entry) → Gives S.runs sorted.old given →
        OnOk result (E.taken sink.new tree ≡ E.taken sink.old tree ++ once_from None given) }
    ensures others { OnOk result ((other : TreeWord) → other ≢ tree →
        E.taken sink.new other ≡ E.taken sink.old other) }
    ensures same { OnOk result (E.is_same sink.old sink.new) }
    ensures many { S.is_true ≡ true → (given : List Entry) → Gives S.runs sorted.old given →
        result ≡ Err SinkFault.TooMany →
        ENTRY_LIMIT < length (E.taken sink.old tree ++ once_from None given) }
    ensures device { S.may_refuse ≡ false → S.is_true ≡ true → E.may_refuse ≡ false → (given : List Entry) →
        Gives S.runs sorted.old given → result ≢ Err SinkFault.Device }
{
    let mut last = LastKey::new(alloc);
    'records: loop {
        match sorted.next() {
            Ok(true) => give_current(sorted, &mut last, tree, sink)?,
            Ok(false) => return Ok(()),
            Err(fault) => return Err(sink_fault(fault)),
        }
    }
}

/// Gives the record that the sorter is at to the sink, if its key is above the last one.
fn give_current<S: RunStore, E: EntrySink>(
    sorted: &Sorted<S>,
    last: &mut LastKey,
    tree: Tree,
    sink: &mut E,
) -> Result<(), SinkFault>
    ensures taken { (e : Entry) → current sorted.now ≡ Some e → OnOk result
        (E.taken sink.new tree ≡ E.taken sink.old tree ++ added last.old e) }
    ensures key { (e : Entry) → current sorted.now ≡ Some e → OnOk result
        (last.new ≡ key_after last.old e.key) }
    ensures others { OnOk result ((other : TreeWord) → other ≢ tree →
        E.taken sink.new other ≡ E.taken sink.old other) }
    ensures same { OnOk result (E.is_same sink.old sink.new) }
    ensures many { (e : Entry) → current sorted.now ≡ Some e → result ≡ Err SinkFault.TooMany →
        (ENTRY_LIMIT ≤ length (E.taken sink.old tree)) × (is_new last.old e.key ≡ true) }
    ensures device { E.may_refuse ≡ false → (e : Entry) → current sorted.now ≡ Some e →
        result ≢ Err SinkFault.Device }
{
    let Some(record) = sorted.record() else {
        return Err(SinkFault::Device);
    };
    if last.rise(record.key)? {
        sink.take(tree, record.key, record.value)?;
    }
    Ok(())
}

/// The fault of a sorter as one of a sink.
fn sink_fault(fault: SortFault) -> SinkFault
    requires { fault ≢ SortFault.TooLong }
    ensures many { result ≢ SinkFault.TooMany }
    ensures device { result ≡ SinkFault.Device → fault ≡ SortFault.Device }
{
    match fault {
        SortFault::Memory => SinkFault::Memory,
        SortFault::Device => SinkFault::Device,
        SortFault::TooLong => unreachable!("no record is taken"),
    }
}
