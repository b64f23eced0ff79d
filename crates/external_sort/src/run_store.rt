//! Where runs are kept.

ghost use Rattle.std.specs.Prelude.{◌≡◌, ◌≤◌, ◌<◌, ◌+◌, ◌++◌, ◌∷◌, ℕ, Bool, List, [], IfOk, IsOk, OnOk, drop, false, length, take, true};
ghost use Rattle.external_sort.specs.Runs.{run_at};

use thiserror::Error;

/// The device of a store failed.
#[derive(Clone, Copy, Debug, PartialEq, Eq, Error)]
#[error("device")]
pub struct StoreFault;

/// A device that keeps runs of bytes: those that were ended, by their numbers from 0 on, and one in hand.
///
/// The clauses say what a store has been told. That its device gives back just that can be shown of memory, and of no
/// device: `is_true` says whether it is. After a refusal nothing is known of what the store keeps.
pub trait RunStore: Drop {
    /// The bytes of the runs that were ended, in order.
    ghost runs: { Self → List (List ℕ) };

    /// The bytes of the run in hand.
    ghost in_hand: { Self → List ℕ };

    /// Whether a call may be refused that asks for what there is. Of a device it may.
    ghost may_refuse: { Bool };

    /// Whether what is read is what was written. Of a device nobody can show it.
    ghost is_true: { Bool };

    /// Adds bytes to the run in hand.
    fn append(&mut self, bytes: &[u8]) -> Result<(), StoreFault>
        ensures in_hand { OnOk result (in_hand self.new ≡ in_hand self.old ++ bytes.now) }
        ensures runs { OnOk result (runs self.new ≡ runs self.old) }
        ensures given { may_refuse ≡ false → IsOk result };

    /// Ends the run in hand, which is the next of the runs. The one in hand is empty then.
    fn end_run(&mut self) -> Result<(), StoreFault>
        ensures runs { OnOk result (runs self.new ≡ runs self.old ++ in_hand self.old ∷ []) }
        ensures in_hand { OnOk result (in_hand self.new ≡ []) }
        ensures given { may_refuse ≡ false → IsOk result };

    /// Reads the bytes of a run from an offset on, as many as `into` has. Refused where the run has fewer, or where there
    /// is no such run.
    fn read(&mut self, run: usize, offset: u64, into: &mut [u8]) -> Result<(), StoreFault>
        ensures read { is_true ≡ true → OnOk result
            (into.new ≡ take (length into.old) (drop offset (run_at run (runs self.old)))) }
        ensures runs { OnOk result (runs self.new ≡ runs self.old) }
        ensures in_hand { OnOk result (in_hand self.new ≡ in_hand self.old) }
        ensures given { may_refuse ≡ false → run < length (runs self.old) →
            offset + length into.old ≤ length (run_at run (runs self.old)) → IsOk result };
}

/// Makes stores of runs, as many as are asked for: on a disk, each is a file of its own.
pub trait StoreMaker<S: RunStore> {
    /// A store without runs. Refused where the device fails.
    fn make_store(&mut self) -> Result<S, StoreFault>
        ensures runs { IfOk result (λ store. S.runs store ≡ []) }
        ensures in_hand { IfOk result (λ store. S.in_hand store ≡ []) }
        ensures given { S.may_refuse ≡ false → IsOk result };
}
