//! A reader of the rows of a level.

ghost use Rattle.std.specs.Prelude.{◌≡◌, ◌≢◌, ◌≤◌, ◌<◌, ◌+◌, ◌*◌, ℕ, List, Err, IfOk, OnOk, drop, false, length, take, true};
ghost use Rattle.external_sort.specs.Runs.{run_at};
ghost use Rattle.level_files.specs.internal.Rows.{IsAt, IsRow, passed_by};

use crate::row::{ROW_LEN, read_row};
use external_sort::RunStore;
use std::alloc::Global;
use tree_stream::{NodeLen, ReadBackFault};

/// How many rows are read at once.
const ROWS_AT_ONCE: u32 = 4_096;

/// A place in the rows of a level, from which they go on.
#[derive(Drop)]
pub(crate) struct RowReader {
    /// Rows that were read at once. It is used again.
    buffer: Vec<u8>,
    /// The number of the first of them, from 0.
    first: u32,
    /// How many rows were passed.
    passed: u32,
}

impl RowReader {
    /// Before the first row. It takes no memory yet.
    pub(crate) fn new(alloc: Global) -> RowReader
        ensures at { (rows : List ℕ) → IsAt rows result }
        ensures passed { result.passed ≡ 0 }
    {
        RowReader {
            buffer: Vec::new(alloc),
            first: 0,
            passed: 0,
        }
    }

    /// Goes back to the first row.
    pub(crate) fn rewind(&mut self)
        ensures at { (rows : List ℕ) → IsAt rows self.new }
        ensures passed { self.new.passed ≡ 0 }
    {
        self.buffer.clear();
        self.first = 0;
        self.passed = 0;
    }

    /// The next of so many rows, which are in the first run of a store; none after the last.
    pub(crate) fn next<S: RunStore>(
        &mut self,
        store: &mut S,
        count: u32,
    ) -> Result<Option<NodeLen>, ReadBackFault>
        ensures row { S.is_true ≡ true → IsAt (run_at 0 (S.runs store.old)) self.old
            → IfOk result (IsRow (run_at 0 (S.runs store.old)) count self.old.passed) }
        ensures at { S.is_true ≡ true → IsAt (run_at 0 (S.runs store.old)) self.old
            → OnOk result (IsAt (run_at 0 (S.runs store.old)) self.new) }
        ensures passed { IfOk result (λ row. self.new.passed ≡ passed_by self.old.passed row) }
        ensures runs { OnOk result (S.runs store.new ≡ S.runs store.old) }
        ensures given { S.may_refuse ≡ false → 0 < length (S.runs store.old)
            → 5 * count ≤ length (run_at 0 (S.runs store.old)) → result ≢ Err ReadBackFault.Device }
    {
        if self.passed >= count {
            return Ok(None);
        }
        let at = self.reach(store, count)?;
        let rest = &self.buffer[at..];
        let [a, b, c, d, children, ..] = *rest else {
            return Err(ReadBackFault::Device);
        };
        self.passed += 1;
        Ok(Some(read_row([a, b, c, d, children])))
    }

    /// Reads on where the next row isn't in the buffer, and says where it is there.
    fn reach<S: RunStore>(&mut self, store: &mut S, count: u32) -> Result<usize, ReadBackFault>
        requires { self.old.passed < count }
        ensures within { IfOk result (λ at. at + 5 ≤ length self.new.buffer.items) }
        ensures row { S.is_true ≡ true → IsAt (run_at 0 (S.runs store.old)) self.old
            → IfOk result (λ at. take 5 (drop at self.new.buffer.items)
            ≡ take 5 (drop (5 * self.old.passed) (run_at 0 (S.runs store.old)))) }
        ensures at { S.is_true ≡ true → IsAt (run_at 0 (S.runs store.old)) self.old
            → OnOk result (IsAt (run_at 0 (S.runs store.old)) self.new) }
        ensures passed { self.new.passed ≡ self.old.passed }
        ensures runs { OnOk result (S.runs store.new ≡ S.runs store.old) }
        ensures given { S.may_refuse ≡ false → 0 < length (S.runs store.old)
            → 5 * count ≤ length (run_at 0 (S.runs store.old)) → result ≢ Err ReadBackFault.Device }
    {
        let at = ROW_LEN * self.passed.saturating_sub(self.first) as usize;
        if at + ROW_LEN <= self.buffer.len() {
            return Ok(at);
        }
        self.first = self.passed;
        let rows = (count - self.passed).min(ROWS_AT_ONCE);
        self.fill(store, rows)?;
        Ok(0)
    }

    /// Reads so many rows, from the first of the buffer on.
    fn fill<S: RunStore>(&mut self, store: &mut S, rows: u32) -> Result<(), ReadBackFault>
        requires { rows < 5_000 }
        ensures len { OnOk result (length self.new.buffer.items ≡ 5 * rows) }
        ensures read { S.is_true ≡ true → OnOk result (self.new.buffer.items
            ≡ take (5 * rows) (drop (5 * self.old.first) (run_at 0 (S.runs store.old)))) }
        ensures first { self.new.first ≡ self.old.first }
        ensures passed { self.new.passed ≡ self.old.passed }
        ensures runs { OnOk result (S.runs store.new ≡ S.runs store.old) }
        ensures given { S.may_refuse ≡ false → 0 < length (S.runs store.old)
            → 5 * self.old.first + 5 * rows ≤ length (run_at 0 (S.runs store.old))
            → result ≢ Err ReadBackFault.Device }
    {
        self.buffer.resize(ROW_LEN * rows as usize, 0)?;
        let offset = 5 * u64::from(self.first);
        if store.read(0, offset, self.buffer.as_mut_slice()).is_err() {
            return Err(ReadBackFault::Device);
        }
        Ok(())
    }
}
