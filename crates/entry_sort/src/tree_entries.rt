//! Handing the entries of a tree of a set to a sorter.

ghost use Rattle.std.specs.List.{AllByRecursion};
ghost use Rattle.std.specs.Prelude.{◌≡◌, ◌≢◌, ◌++◌, Err, IfErr, List, OnOk, false, map};
ghost use Rattle.osm_model.specs.Elements.{Element};
ghost use Rattle.external_sort.specs.Records.{Entry as Record, Fits};
ghost use Rattle.external_sort.specs.Sorting.{Holds};
ghost use Rattle.entry_sort.specs.Holding.{HoldsTree};
ghost use Rattle.entry_sort.specs.internal.Once.{record_of};

use external_sort::{RunStore, SortFault, Sorter};
use osm_index::entries_of;
use osm_model::ObjectSet;
use std::alloc::Global;
use tree_node::{Item, Tree};

/// Hands the entries of a tree of a set to the sorter, by rising key.
pub(crate) fn push_entries<S: RunStore>(
    alloc: Global,
    sorter: &mut Sorter<S>,
    set: &ObjectSet,
    tree: Tree,
) -> Result<(), SortFault>
    ensures held { OnOk result ((objects : List Element) →
        HoldsTree S.runs S.in_hand sorter.old objects tree →
        HoldsTree S.runs S.in_hand sorter.new (objects ++ set.now) tree) }
    ensures short { IfErr result (λ fault. fault ≢ SortFault.TooLong) }
    ensures device { S.may_refuse ≡ false → result ≢ Err SortFault.Device }
{
    let list = entries_of(alloc, set, tree)?;
    let entries = list.sorted(alloc)?;
    // For the proof alone: a set's objects keep their limits.
    let _set = set.as_slice();
    push_all(sorter, &entries)
}

/// Hands entries to the sorter.
fn push_all<S: RunStore>(sorter: &mut Sorter<S>, entries: &[Item<'_>]) -> Result<(), SortFault>
    ensures held { OnOk result ((records : List Record) → Holds S.runs S.in_hand sorter.old records →
        Holds S.runs S.in_hand sorter.new (records ++ map record_of entries.now)) }
    ensures short { AllByRecursion Fits (map record_of entries.now) →
        IfErr result (λ fault. fault ≢ SortFault.TooLong) }
    ensures device { S.may_refuse ≡ false → result ≢ Err SortFault.Device }
{
    for entry in entries {
        sorter.push(entry.key, entry.value)?;
    }
    Ok(())
}
