//! Runs in a scratch file.

ghost use Rattle.std.specs.Prelude.{◌≡◌, [], false, true};

use crate::pending::Pending;
use crate::told::{Piece, Told};
use external_sort::{RunStore, StoreFault};
use std::alloc::Global;
use std::fs::File;
use std::os::unix::fs::FileExt;

/// Runs of bytes, one after the other in a file. Contracts see what it was told, and nothing of what the file gives back.
///
/// Besides what the system keeps, it takes the memory of 64 KiB that aren't written yet and of eight bytes for each run. A
/// refused call is a fault of the device, also where that memory is refused.
#[derive(Drop)]
pub struct ScratchStore {
    file: File,
    pending: Pending,
    /// Where each run that was ended ends in the file.
    ends: Vec<u64>,
    told: Told,
}

impl ScratchStore {
    /// No runs yet, in a file that is empty.
    pub(crate) fn new(alloc: Global, file: File) -> ScratchStore
        ensures { (result.told.runs ≡ []) × (result.told.in_hand ≡ []) }
    {
        ScratchStore {
            file,
            pending: Pending::new(alloc),
            ends: Vec::new(alloc),
            told: Told::new(),
        }
    }

    /// Where a run begins and ends in the file; none where there is no such run.
    fn span(&self, run: usize) -> Option<(u64, u64)> {
        let end = *self.ends.get(run)?;
        let start = match run.checked_sub(1) {
            Some(before) => *self.ends.get(before)?,
            None => 0,
        };
        Some((start, end))
    }
}

impl RunStore for ScratchStore {
    ghost runs = { λ store. store.told.runs };

    ghost in_hand = { λ store. store.told.in_hand };

    ghost may_refuse = { true };

    ghost is_true = { false };

    fn append(&mut self, bytes: &[u8]) -> Result<(), StoreFault> {
        self.pending.add(&self.file, bytes)?;
        self.told = Told::and(&self.told, &Piece { bytes });
        Ok(())
    }

    fn end_run(&mut self) -> Result<(), StoreFault> {
        self.pending.write(&self.file)?;
        if self.ends.push(self.pending.end()).is_err() {
            return Err(StoreFault);
        }
        self.told = Told::ended(&self.told);
        Ok(())
    }

    fn read(&mut self, run: usize, offset: u64, into: &mut [u8]) -> Result<(), StoreFault> {
        let Some((start, end)) = self.span(run) else {
            return Err(StoreFault);
        };
        let Some(left) = end.saturating_sub(start).checked_sub(offset) else {
            return Err(StoreFault);
        };
        if left < into.len() as u64 {
            return Err(StoreFault);
        }
        match self.file.read_exact_at(into, start.saturating_add(offset)) {
            Ok(()) => Ok(()),
            Err(_) => Err(StoreFault),
        }
    }
}
