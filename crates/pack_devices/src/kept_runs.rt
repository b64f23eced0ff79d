//! Stores in memory, which may refuse each call in turn.

ghost use Rattle.std.specs.Prelude.{◌≡◌, ◌≤◌, ◌<◌, ◌+◌, ◌++◌, ◌∷◌, [], IsOk, OnOk, drop, false, length, map, take, true};
ghost use Rattle.external_sort.specs.Runs.{run_at};

use external_sort::{RunStore, StoreFault, StoreMaker};
use std::alloc::Global;

/// Keeps runs in memory, and refuses each call after so many.
#[derive(Drop)]
pub struct KeptRuns {
    alloc: Global,
    runs: Vec<Vec<u8>>,
    hand: Vec<u8>,
    calls: u64,
}

impl KeptRuns {
    /// A store without runs.
    pub fn new(alloc: Global, calls: u64) -> KeptRuns
        ensures runs { result.runs.items ≡ [] }
        ensures hand { result.hand.items ≡ [] }
    {
        KeptRuns {
            alloc,
            runs: Vec::new(alloc),
            hand: Vec::new(alloc),
            calls,
        }
    }
}

impl RunStore for KeptRuns {
    ghost runs = { λ kept. map (λ run. run.items) kept.runs.items };

    ghost in_hand = { λ kept. kept.hand.items };

    ghost may_refuse = { true };

    ghost is_true = { true };

    fn append(&mut self, bytes: &[u8]) -> Result<(), StoreFault> {
        let Some(calls) = self.calls.checked_sub(1) else {
            return Err(StoreFault);
        };
        self.calls = calls;
        match self.hand.extend_from_slice(bytes) {
            Ok(()) => Ok(()),
            Err(_) => Err(StoreFault),
        }
    }

    fn end_run(&mut self) -> Result<(), StoreFault> {
        let Some(calls) = self.calls.checked_sub(1) else {
            return Err(StoreFault);
        };
        self.calls = calls;
        let run = std::mem::replace(&mut self.hand, Vec::new(self.alloc));
        match self.runs.push(run) {
            Ok(()) => Ok(()),
            Err(_) => Err(StoreFault),
        }
    }

    fn read(&mut self, run: usize, offset: u64, into: &mut [u8]) -> Result<(), StoreFault> {
        let Some(calls) = self.calls.checked_sub(1) else {
            return Err(StoreFault);
        };
        self.calls = calls;
        if run >= self.runs.len() {
            return Err(StoreFault);
        }
        let bytes = self.runs[run].as_slice();
        let start = offset as usize;
        if start > bytes.len() || into.len() > bytes.len() - start {
            return Err(StoreFault);
        }
        into.copy_from_slice(&bytes[start..start + into.len()]);
        Ok(())
    }
}

/// Makes stores, of which one refuses each call after so many; from that number on none are made where it allows no call.
#[derive(Drop)]
pub struct KeptRunsMaker {
    alloc: Global,
    made: usize,
    refusing: usize,
    calls: u64,
}

impl KeptRunsMaker {
    /// The store with this number, from 0 on, refuses to be made, or each call after so many less one.
    pub fn new(alloc: Global, refusing: usize, calls: u64) -> KeptRunsMaker {
        KeptRunsMaker {
            alloc,
            made: 0,
            refusing,
            calls,
        }
    }
}

impl StoreMaker<KeptRuns> for KeptRunsMaker {
    fn make_store(&mut self) -> Result<KeptRuns, StoreFault> {
        let calls = if self.made == self.refusing {
            self.calls
        } else {
            u64::MAX
        };
        if calls == 0 {
            return Err(StoreFault);
        }
        self.made = self.made.wrapping_add(1);
        Ok(KeptRuns::new(self.alloc, calls - 1))
    }
}
