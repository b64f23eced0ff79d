//! Taking records.

ghost use Rattle.std.specs.Prelude.{◌≡◌, ◌≢◌, ◌++◌, ◌∷◌, ℕ, List, [], Err, IfErr, IfOk, OnOk, false, true};
ghost use Rattle.std.specs.List.Sorted.{IsPermutation};
ghost use Rattle.external_sort.specs.Records.{Entry, Rises, entry};
ghost use Rattle.external_sort.specs.Sorting.{Gives, Holds, IsSettled, IsTooLong};

use crate::batch::Batch;
use crate::fault::SortFault;
use crate::merge::Merge;
use crate::place::Place;
use crate::run_store::RunStore;
use crate::sorted::Sorted;
use crate::spelling::HEADER_LEN;
use crate::write_run::write_run;
use std::alloc::Global;

/// A key has fewer bytes.
const KEY_LIMIT: usize = 65_536;

/// A value has fewer bytes.
const VALUE_LIMIT: usize = 4_294_967_296;

/// Takes records in any order, more than memory holds. After a fault other than `TooLong` it is of no more use.
#[derive(Drop)]
pub struct Sorter<S: RunStore> {
    alloc: Global,
    store: S,
    batch: Batch,
    /// How many bytes each run has that was written.
    lens: Vec<u64>,
    memory: usize,
}

impl<S: RunStore> Sorter<S> {
    /// Holds no records. The store has no runs yet, and nothing is in its hand. `memory` is how many
    /// bytes the records in memory may take, with their places; a longer record is held alone. What the
    /// vectors reserve beyond may double it. It takes no memory yet.
    pub fn new(alloc: Global, store: S, memory: usize) -> Sorter<S>
        requires runs { S.runs store ≡ [] }
        requires in_hand { S.in_hand store ≡ [] }
        ensures { Holds S.runs S.in_hand result [] }
    {
        Sorter {
            alloc,
            store,
            batch: Batch::new(alloc),
            lens: Vec::new(alloc),
            memory,
        }
    }

    /// Takes a record. Where there is no more room for it, the records in memory are sorted before and written as a run.
    ///
    /// Refused with `TooLong` exactly where the key has 2^16 bytes or more or the value 2^32 or more, and then nothing
    /// changes; with `Memory` where memory is refused, and with `Device` where the store refuses.
    pub fn push(&mut self, key: &[u8], value: &[u8]) -> Result<(), SortFault>
        ensures held { OnOk result ((records : List Entry) → Holds S.runs S.in_hand self.old records →
            Holds S.runs S.in_hand self.new (records ++ entry key.now value.now ∷ [])) }
        ensures too_long { IsTooLong key.now value.now →
            (result ≡ Err SortFault.TooLong) × (self.new ≡ self.old) }
        ensures short { result ≡ Err SortFault.TooLong → IsTooLong key.now value.now }
        ensures device { S.may_refuse ≡ false → result ≢ Err SortFault.Device }
    {
        if key.len() >= KEY_LIMIT || value.len() >= VALUE_LIMIT {
            return Err(SortFault::TooLong);
        }
        self.make_room(HEADER_LEN + key.len() + value.len() + size_of::<Place>())?;
        self.batch.push(key, value)?;
        Ok(())
    }

    /// Writes the records in memory as a run, if there are any and so many bytes more don't fit.
    fn make_room(&mut self, len: usize) -> Result<(), SortFault>
        ensures held { OnOk result ((records : List Entry) → Holds S.runs S.in_hand self.old records →
            Holds S.runs S.in_hand self.new records) }
        ensures short { IfErr result (λ fault. fault ≢ SortFault.TooLong) }
        ensures device { S.may_refuse ≡ false → IfErr result (λ fault. fault ≡ SortFault.Memory) }
    {
        if self.batch.len() > 0 && self.batch.size().saturating_add(len) > self.memory {
            write_run(&mut self.batch, &mut self.store, &mut self.lens)?;
        }
        Ok(())
    }

    /// Ends the taking: gives the records by rising keys. If they all fit in memory no run is written, else the last ones
    /// are written as a run.
    ///
    /// Refused with `Memory` where memory is refused, and with `Device` where the store refuses.
    pub fn finish(mut self) -> Result<Sorted<S>, SortFault>
        ensures given { S.is_true ≡ true → IfOk result (λ sorted. (records : List Entry) → Holds S.runs S.in_hand self records →
            (given : List Entry) × IsPermutation records given × Rises given
            × Gives S.runs sorted given) }
        ensures short { IfErr result (λ fault. fault ≢ SortFault.TooLong) }
        ensures device { S.may_refuse ≡ false → S.is_true ≡ true → (records : List Entry) →
            Holds S.runs S.in_hand self records → result ≢ Err SortFault.Device }
    {
        self.settle()?;
        let merge = Merge::new(self.alloc, self.store, &self.lens, self.memory)?;
        Ok(Sorted::new(self.batch, merge))
    }

    /// Sorts the records in memory if all are there, and writes them as a run if not.
    fn settle(&mut self) -> Result<(), SortFault>
        ensures settled { OnOk result ((records : List Entry) → Holds S.runs S.in_hand self.old records →
            IsSettled S.runs self.new records) }
        ensures short { IfErr result (λ fault. fault ≢ SortFault.TooLong) }
        ensures device { S.may_refuse ≡ false → IfErr result (λ fault. fault ≡ SortFault.Memory) }
    {
        if self.lens.is_empty() {
            self.batch.sort();
            return Ok(());
        }
        if self.batch.len() > 0 {
            write_run(&mut self.batch, &mut self.store, &mut self.lens)?;
            // The buffers of the runs need the memory.
            self.batch = Batch::new(self.alloc);
        }
        Ok(())
    }
}
