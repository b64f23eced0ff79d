//! The merge of runs.

ghost use Rattle.std.specs.Prelude.{◌≡◌, ◌≢◌, ◌<◌, ◌≤◌, ◌+◌, ℕ, List, [], Err, IfErr, IfOk, None, Ok, OnOk, false, length, slice_index_or, true};
ghost use Rattle.std.specs.BinaryHeap.{IsHeap, heap_items};
ghost use Rattle.std.specs.List.{All, sum_by};
ghost use Rattle.external_sort.specs.Records.{Entry, Fits};
ghost use Rattle.external_sort.specs.internal.Merging.{AreRuns, Begins, Goes, IsMerging, Ready, Shows, StateOf, Turn, entries};
ghost use Rattle.external_sort.specs.internal.Reading.{HasLeft};
ghost use Rattle.external_sort.specs.internal.Tagged.{UpTo};
ghost use Rattle.external_sort.specs.internal.Turns.{turn_cmp};
ghost use Rattle.external_sort.specs.internal.Unread.{unread_in, unread_with_own};

use crate::fault::SortFault;
use crate::record::Record;
use crate::run_reader::RunReader;
use crate::run_store::RunStore;
use std::alloc::Global;
use std::collections::BinaryHeap;

/// The least and the greatest number of bytes that are read of a run at once.
const CHUNK_LEN: usize = 65_536;

const LONG_CHUNK_LEN: usize = 1_048_576;

/// A reader of each run, in the order in which they give their records; the one that gave the last record stands apart.
#[derive(Drop)]
pub(crate) struct Merge<S: RunStore> {
    store: S,
    heap: BinaryHeap<RunReader>,
    current: Option<RunReader>,
}

impl<S: RunStore> Merge<S> {
    /// Before the first record of runs that have so many bytes each. The memory is shared out to them, but each gets room for
    /// 65,536 bytes and for a record.
    pub(crate) fn new(
        alloc: Global,
        mut store: S,
        lens: &[u64],
        memory: usize,
    ) -> Result<Merge<S>, SortFault>
        ensures begins { S.is_true ≡ true → IfOk result (λ merge. (kept : List (List Entry)) →
            AreRuns (S.runs store) lens.now kept → Begins S.runs merge kept) }
        ensures short { IfErr result (λ fault. fault ≢ SortFault.TooLong) }
        ensures device { S.may_refuse ≡ false → S.is_true ≡ true → (kept : List (List Entry)) →
            AreRuns (S.runs store) lens.now kept → result ≢ Err SortFault.Device }
    {
        let mut heap = BinaryHeap::with_capacity(alloc, lens.len())?;
        let chunk = (memory / lens.len().max(1)).clamp(CHUNK_LEN, LONG_CHUNK_LEN);
        for (run, len) in lens.iter().enumerate() {
            begin(
                RunReader::new(alloc, run, *len, chunk),
                &mut store,
                &mut heap,
            )?;
        }
        Ok(Merge {
            store,
            heap,
            current: None,
        })
    }

    /// Goes to the next record, and says whether there is one. It takes log k steps for k runs.
    pub(crate) fn next(&mut self) -> Result<bool, SortFault>
        ensures goes { S.is_true ≡ true → IfOk result (λ more. (records : List Entry) → IsMerging S.runs self.old records →
            Goes S.runs more self.new records) }
        ensures fewer { result ≡ Ok true → unread_in self.new < unread_in self.old }
        ensures no_more { result ≡ Ok false → unread_in self.new ≤ unread_in self.old }
        ensures short { IfErr result (λ fault. fault ≢ SortFault.TooLong) }
        ensures device { S.may_refuse ≡ false → S.is_true ≡ true → (records : List Entry) →
            IsMerging S.runs self.old records → result ≢ Err SortFault.Device }
    {
        self.put_back()?;
        self.current = self.heap.pop();
        Ok(self.current.is_some())
    }

    /// Lets the reader that gave the last record take its turn again, if its run has another record.
    fn put_back(&mut self) -> Result<(), SortFault>
        ensures ready { S.is_true ≡ true → OnOk result ((turns : List Turn) → All Fits (entries turns) →
            StateOf (S.runs self.old.store) turns self.old.current (heap_items self.old.heap) →
            Ready (S.runs self.new.store) turns (heap_items self.new.heap)) }
        ensures heap { OnOk result (IsHeap turn_cmp (heap_items self.old.heap) →
            IsHeap turn_cmp (heap_items self.new.heap)) }
        ensures left { OnOk result
            (sum_by unread_with_own (heap_items self.new.heap) ≤ unread_in self.old) }
        ensures short { IfErr result (λ fault. fault ≢ SortFault.TooLong) }
        ensures device { S.may_refuse ≡ false → S.is_true ≡ true → (turns : List Turn) →
            All Fits (entries turns) →
            StateOf (S.runs self.old.store) turns self.old.current (heap_items self.old.heap) →
            result ≢ Err SortFault.Device }
    {
        let Some(mut reader) = self.current.take() else {
            return Ok(());
        };
        if reader.advance(&mut self.store)? {
            self.heap.push(reader)?;
        }
        Ok(())
    }

    /// The record that it is at.
    pub(crate) fn record(&self) -> Option<Record<'_>>
        ensures { Shows self.now.current result }
    {
        match &self.current {
            Some(reader) => Some(reader.record()),
            None => None,
        }
    }
}

/// Gives the reader its first turn, if its run has a record.
fn begin<S: RunStore>(
    mut reader: RunReader,
    store: &mut S,
    heap: &mut BinaryHeap<RunReader>,
) -> Result<(), SortFault>
    ensures begun { S.is_true ≡ true → OnOk result ((lens : List ℕ) (kept : List (List Entry)) →
        AreRuns (S.runs store.old) lens kept → reader.run < length kept →
        HasLeft (S.runs store.old) reader (slice_index_or kept reader.run []) →
        UpTo (S.runs store.old) kept reader.run (heap_items heap.old) →
        UpTo (S.runs store.old) kept (reader.run + 1) (heap_items heap.new)) }
    ensures heap { OnOk result (IsHeap turn_cmp (heap_items heap.old) →
        IsHeap turn_cmp (heap_items heap.new)) }
    ensures runs { OnOk result (S.runs store.new ≡ S.runs store.old) }
    ensures short { IfErr result (λ fault. fault ≢ SortFault.TooLong) }
    ensures device { S.may_refuse ≡ false → S.is_true ≡ true → (es : List Entry) → All Fits es →
        HasLeft (S.runs store.old) reader es → result ≢ Err SortFault.Device }
{
    if reader.advance(store)? {
        heap.push(reader)?;
    }
    Ok(())
}
