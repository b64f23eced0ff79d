//! Sorting the references of objects.

ghost use Rattle.std.specs.Prelude.{◌≡◌, ◌≢◌, ◌++◌, ◌∷◌, ℕ, Err, IfErr, IfOk, List, OnOk, Option, Some, [], false, map, true};
ghost use Rattle.external_sort.specs.Records.{Entry};
ghost use Rattle.external_sort.specs.Sorting.{Gives, current};
ghost use Rattle.entry_sort.specs.internal.Names.{HoldsNames, IsLeastRepeat, Named, line_in, name_record, named, scan, start, stepped};

use crate::repeat_scan::RepeatScan;
use crate::rising::Rising;
use external_sort::{RunStore, SortFault, Sorted, Sorter};
use osm_keys::reference_key;
use osm_model::Ref;
use std::alloc::Global;

/// Sorts the references of the objects of a file with the lines that put them. After a fault it is of no more use.
#[derive(Drop)]
pub(crate) struct NameSorter<S: RunStore> {
    sorter: Sorter<S>,
    /// Where each reference is above the one before it, none is repeated.
    rising: Rising,
}

impl<S: RunStore> NameSorter<S> {
    /// Holds no references. `memory` is in bytes, as `Sorter::new` says. It takes no memory yet.
    pub(crate) fn new(alloc: Global, store: S, memory: usize) -> NameSorter<S>
        requires runs { S.runs store ≡ [] }
        requires in_hand { S.in_hand store ≡ [] }
        ensures { HoldsNames S.runs S.in_hand result [] }
    {
        NameSorter {
            sorter: Sorter::new(alloc, store, memory),
            rising: Rising::new(alloc),
        }
    }

    /// Takes the reference of the object that a line puts.
    pub(crate) fn add(&mut self, name: Ref, line: u64) -> Result<(), SortFault>
        ensures held { OnOk result ((names : List Named) →
            HoldsNames S.runs S.in_hand self.old names →
            HoldsNames S.runs S.in_hand self.new (names ++ named name line ∷ [])) }
        ensures short { IfErr result (λ fault. fault ≢ SortFault.TooLong) }
        ensures device { S.may_refuse ≡ false → result ≢ Err SortFault.Device }
    {
        let key = reference_key(name);
        let value = line.to_be_bytes();
        self.rising.take(&key)?;
        self.sorter.push(&key, &value)
    }

    /// The first line that puts an object whose reference a line before it puts, if any does. Where the references rise, as
    /// in extracts, none does, and no record is read back.
    pub(crate) fn first_repeat(self, alloc: Global) -> Result<Option<u64>, SortFault>
        ensures least { S.is_true ≡ true → IfOk result (λ found. (names : List Named) →
            HoldsNames S.runs S.in_hand self names → IsLeastRepeat (map name_record names) found) }
        ensures short { IfErr result (λ fault. fault ≢ SortFault.TooLong) }
        ensures device { S.may_refuse ≡ false → S.is_true ≡ true → (names : List Named) →
            HoldsNames S.runs S.in_hand self names → result ≢ Err SortFault.Device }
    {
        if self.rising.all_rise {
            return Ok(None);
        }
        let mut sorted = self.sorter.finish()?;
        scan_all(alloc, &mut sorted)
    }
}

/// The least line that repeats a reference, of the records that are left.
fn scan_all<S: RunStore>(alloc: Global, sorted: &mut Sorted<S>) -> Result<Option<u64>, SortFault>
    ensures found { S.is_true ≡ true → (given : List Entry) → Gives S.runs sorted.old given →
        IfOk result (λ found. found ≡ (scan start given).found) }
    ensures short { IfErr result (λ fault. fault ≢ SortFault.TooLong) }
    ensures device { S.may_refuse ≡ false → S.is_true ≡ true → (given : List Entry) → Gives S.runs sorted.old given →
        result ≢ Err SortFault.Device }
{
    let mut repeats = RepeatScan::new(alloc);
    'records: while sorted.next()? {
        scan_current(sorted, &mut repeats)?;
    }
    Ok(repeats.found)
}

/// Takes the record that the sorter is at.
fn scan_current<S: RunStore>(sorted: &Sorted<S>, repeats: &mut RepeatScan) -> Result<(), SortFault>
    ensures stepped { (e : Entry) → current sorted.now ≡ Some e →
        OnOk result (repeats.new ≡ stepped repeats.old e.key (line_in e.value)) }
    ensures short { IfErr result (λ fault. fault ≢ SortFault.TooLong) }
    ensures device { (e : Entry) → current sorted.now ≡ Some e → result ≢ Err SortFault.Device }
{
    let Some(record) = sorted.record() else {
        return Err(SortFault::Device);
    };
    repeats.take(record.key, line_in(record.value))?;
    Ok(())
}

/// The line that a value is; 0 where it is too short.
fn line_in(value: &[u8]) -> u64
    ensures { result ≡ line_in value.now }
{
    let [a, b, c, d, e, f, g, h, ..] = *value else {
        return 0;
    };
    u64::from_be_bytes([a, b, c, d, e, f, g, h])
}
