//! What was read of a run and isn't passed yet.

ghost use Rattle.std.specs.Prelude.{◌≡◌, ◌≢◌, ◌+◌, ◌++◌, ℕ, List, [], Err, IfErr, OnOk, length, drop, take, false, true};
ghost use Rattle.external_sort.specs.Runs.{run_at};
ghost use Rattle.external_sort.specs.internal.Reading.{HasBytes};

use crate::fault::SortFault;
use crate::filling::{fill, grow, shift_down};
use crate::run_store::RunStore;
use std::alloc::Global;
use std::marker::Model;

/// Bytes that were read and aren't passed yet, in a buffer that is used again. Contracts see these bytes.
#[derive(Drop)]
pub(crate) struct Window {
    buffer: Vec<u8>,
    start: usize,
    end: usize,
}

impl Model for Window {
    ghost use Rattle.std.specs.Prelude.{ℕ, List, ◌≤◌, slice_range, vec_len};

    ghost Value = { List ℕ };

    ghost view = { λ w. slice_range w.buffer.items w.start w.end };

    ghost invariant = { λ w. (w.start ≤ w.end) × (w.end ≤ vec_len w.buffer) };
}

impl Window {
    /// No bytes. It takes no memory.
    pub(crate) fn new(alloc: Global) -> Window
        ensures { result ≡ [] }
    {
        Window {
            buffer: Vec::new(alloc),
            start: 0,
            end: 0,
        }
    }

    /// The bytes.
    pub(crate) fn bytes(&self) -> &[u8]
        ensures { result.now ≡ self.now }
    {
        &self.buffer[self.start..self.end]
    }

    /// Passes so many bytes, or all where there are fewer.
    pub(crate) fn pass(&mut self, count: usize)
        ensures { self.new ≡ drop count self.old }
    {
        self.start += count.min(self.end - self.start);
    }

    /// Reads so many bytes of a run, from an offset on, after those that are here.
    pub(crate) fn read<S: RunStore>(
        &mut self,
        store: &mut S,
        run: usize,
        offset: u64,
        count: usize,
    ) -> Result<(), SortFault>
        ensures bytes { S.is_true ≡ true → OnOk result
            (self.new ≡ self.old ++ take count (drop offset (run_at run (S.runs store.old)))) }
        ensures len { OnOk result (length self.new ≡ length self.old + count) }
        ensures runs { OnOk result (S.runs store.new ≡ S.runs store.old) }
        ensures short { IfErr result (λ fault. fault ≢ SortFault.TooLong) }
        ensures device { S.may_refuse ≡ false → HasBytes (S.runs store.old) run offset count →
            result ≢ Err SortFault.Device }
    {
        shift_down(&mut self.buffer, self.start, self.end);
        self.end -= self.start;
        self.start = 0;
        let Some(end) = self.end.checked_add(count) else {
            return Err(SortFault::Memory);
        };
        grow(&mut self.buffer, end)?;
        fill(store, run, offset, &mut self.buffer[self.end..end])?;
        self.end = end;
        Ok(())
    }
}
