//! Writing a run.

ghost use Rattle.std.specs.Prelude.{◌≡◌, ◌≢◌, ◌++◌, ◌∷◌, ℕ, List, [], IfErr, OnOk, false};
ghost use Rattle.std.specs.List.Sorted.{IsPermutation};
ghost use Rattle.external_sort.specs.Records.{Entry};
ghost use Rattle.external_sort.specs.internal.Merging.{AreRuns};

use crate::batch::Batch;
use crate::fault::SortFault;
use crate::run_store::RunStore;

/// Sorts the records in memory, writes them as a run, and drops them.
pub(crate) fn write_run<S: RunStore>(
    batch: &mut Batch,
    store: &mut S,
    lens: &mut Vec<u64>,
) -> Result<(), SortFault>
    ensures run { OnOk result ((kept : List (List Entry)) → AreRuns (S.runs store.old) lens.old.items kept →
        S.in_hand store.old ≡ [] → (es : List Entry) × IsPermutation batch.old es
        × AreRuns (S.runs store.new) lens.new.items (kept ++ es ∷ [])) }
    ensures in_hand { OnOk result (S.in_hand store.new ≡ []) }
    ensures batch { OnOk result (batch.new ≡ []) }
    ensures short { IfErr result (λ fault. fault ≢ SortFault.TooLong) }
    ensures device { S.may_refuse ≡ false → IfErr result (λ fault. fault ≡ SortFault.Memory) }
{
    batch.sort();
    batch.write(store)?;
    store.end_run()?;
    lens.push(batch.bytes_len() as u64)?;
    batch.clear();
    Ok(())
}
