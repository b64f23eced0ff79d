//! Giving records in order.

ghost use Rattle.std.specs.Prelude.{◌≡◌, ◌≢◌, ◌<◌, ◌≤◌, ℕ, List, Err, IfErr, IfOk, Ok, false, true};
ghost use Rattle.external_sort.specs.Records.{Entry};
ghost use Rattle.external_sort.specs.Sorting.{Gives, GoesOn, IsCurrent, current, yet};

use crate::batch::Batch;
use crate::fault::SortFault;
use crate::merge::Merge;
use crate::record::Record;
use crate::run_store::RunStore;

/// Gives records by rising keys, each once; those with one key come in any order. After a fault it is of no more use.
#[derive(Drop)]
pub struct Sorted<S: RunStore> {
    /// The records that never left memory, in order.
    batch: Batch,
    /// How many of them were given.
    given: usize,
    merge: Merge<S>,
}

impl<S: RunStore> Sorted<S> {
    /// Before the first record: the records of the batch are given first.
    pub(crate) fn new(batch: Batch, merge: Merge<S>) -> Sorted<S>
        ensures batch { result.batch ≡ batch }
        ensures given { result.given ≡ 0 }
        ensures merge { result.merge ≡ merge }
    {
        Sorted {
            batch,
            given: 0,
            merge,
        }
    }

    /// Goes to the next record, and says whether there is one. For k runs it takes log k comparisons of keys; a run is read
    /// through a buffer, in one pass.
    ///
    /// Refused with `Memory` where a record of a run is longer than the buffer and there is no memory for it, and with
    /// `Device` where the store refuses.
    pub fn next(&mut self) -> Result<bool, SortFault>
        ensures next { S.is_true ≡ true → IfOk result (λ more. (records : List Entry) → Gives S.runs self.old records →
            GoesOn S.runs more self.new records) }
        // Whatever the store gives back, there is an end: a loop over the records has this measure.
        ensures fewer { result ≡ Ok true → yet self.new < yet self.old }
        ensures no_more { result ≡ Ok false → yet self.new ≤ yet self.old }
        ensures short { IfErr result (λ fault. fault ≢ SortFault.TooLong) }
        ensures device { S.may_refuse ≡ false → S.is_true ≡ true → (records : List Entry) →
            Gives S.runs self.old records → result ≢ Err SortFault.Device }
    {
        if self.given < self.batch.len() {
            self.given += 1;
            return Ok(true);
        }
        self.batch.clear();
        self.given = 0;
        self.merge.next()
    }

    /// The record that it is at; none before the first and after the last.
    pub fn record(&self) -> Option<Record<'_>>
        ensures { IsCurrent (current self.now) result }
    {
        if self.given > 0 {
            if self.given > self.batch.len() {
                return None;
            }
            return Some(self.batch.record(self.given - 1));
        }
        self.merge.record()
    }
}
