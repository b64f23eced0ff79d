//! A reader of one run.

ghost use Rattle.std.specs.Prelude.{◌≡◌, ◌≢◌, ◌+◌, ◌-◌, ◌<◌, ◌≤◌, ℕ, List, Err, IfErr, IfOk, Ok, OnOk, false, length, true};
ghost use Rattle.std.specs.List.{All};
ghost use Rattle.external_sort.specs.Records.{Entry, Fits, entry};
ghost use Rattle.external_sort.specs.Runs.{run_at};
ghost use Rattle.external_sort.specs.internal.Reading.{HasLeft, Begun, Moves, head, rest};
ghost use Rattle.external_sort.specs.internal.Unread.{unread};

use crate::fault::SortFault;
use crate::header::read_header;
use crate::part::part;
use crate::record::Record;
use crate::run_store::RunStore;
use crate::spelling::HEADER_LEN;
use crate::window::Window;
use std::alloc::Global;

/// Reads one run record by record. The record that it is at stands at the front of the window.
#[derive(Drop)]
pub(crate) struct RunReader {
    pub(crate) run: usize,
    window: Window,
    /// Where the key of the record ends, counted from its first byte; 0 before the first record.
    key_end: usize,
    /// Where the record ends; 0 before the first.
    record_end: usize,
    /// How many bytes of the run were read.
    offset: u64,
    /// How many bytes the run has.
    len: u64,
    /// How many bytes are read at once.
    chunk: usize,
}

impl RunReader {
    /// A reader before the first record of a run that has so many bytes. It takes no memory yet.
    pub(crate) fn new(alloc: Global, run: usize, len: u64, chunk: usize) -> RunReader
        ensures { Begun run len result }
    {
        RunReader {
            run,
            window: Window::new(alloc),
            key_end: 0,
            record_end: 0,
            offset: 0,
            len,
            chunk,
        }
    }

    /// The record that it is at.
    pub(crate) fn record(&self) -> Record<'_>
        ensures { entry result.key.now result.value.now ≡ head self.now }
    {
        Record {
            key: self.key(),
            value: part(self.window.bytes(), self.key_end, self.record_end),
        }
    }

    /// The key of the record that it is at.
    pub(crate) fn key(&self) -> &[u8]
        ensures { result.now ≡ (head self.now).key }
    {
        part(self.window.bytes(), HEADER_LEN, self.key_end)
    }

    /// Goes to the next record, and says whether there is one.
    pub(crate) fn advance<S: RunStore>(&mut self, store: &mut S) -> Result<bool, SortFault>
        ensures moves { S.is_true ≡ true → IfOk result (λ more. (es : List Entry) → All Fits es →
            HasLeft (S.runs store.old) self.old es → Moves more (S.runs store.old) self.new es) }
        // Whatever the store gives back, a record takes some of what is unread.
        ensures fewer { result ≡ Ok true → unread self.new < unread self.old }
        ensures no_more { result ≡ Ok false → unread self.new ≤ unread self.old }
        ensures run { self.new.run ≡ self.old.run }
        ensures runs { OnOk result (S.runs store.new ≡ S.runs store.old) }
        ensures short { IfErr result (λ fault. fault ≢ SortFault.TooLong) }
        ensures device { S.may_refuse ≡ false → S.is_true ≡ true → (es : List Entry) → All Fits es →
            HasLeft (S.runs store.old) self.old es → result ≢ Err SortFault.Device }
    {
        self.window.pass(self.record_end);
        self.key_end = 0;
        self.record_end = 0;
        if self.window.bytes().is_empty() && self.len <= self.offset {
            return Ok(false);
        }
        self.read_up_to(store, HEADER_LEN)?;
        let Some((key_end, record_end)) = read_header(self.window.bytes()) else {
            return Err(SortFault::Device);
        };
        self.read_up_to(store, record_end)?;
        self.key_end = key_end;
        self.record_end = record_end;
        Ok(true)
    }

    /// Reads on until the window has so many bytes.
    fn read_up_to<S: RunStore>(&mut self, store: &mut S, count: usize) -> Result<(), SortFault>
        ensures count { OnOk result (count ≤ length self.new.window) }
        ensures rest { S.is_true ≡ true → OnOk result
            (rest (S.runs store.old) self.new ≡ rest (S.runs store.old) self.old) }
        ensures run { self.new.run ≡ self.old.run }
        ensures left { OnOk result (length self.new.window + (self.new.len - self.new.offset)
            ≡ length self.old.window + (self.old.len - self.old.offset)) }
        ensures len { self.new.len ≡ self.old.len }
        ensures end { self.new.record_end ≡ self.old.record_end }
        ensures runs { OnOk result (S.runs store.new ≡ S.runs store.old) }
        ensures short { IfErr result (λ fault. fault ≢ SortFault.TooLong) }
        ensures device { S.may_refuse ≡ false →
            self.old.len ≡ length (run_at self.old.run (S.runs store.old)) →
            count ≤ length (rest (S.runs store.old) self.old) → result ≢ Err SortFault.Device }
    {
        let have = self.window.bytes().len();
        if count <= have {
            return Ok(());
        }
        let left = self.len.saturating_sub(self.offset);
        let wanted = left.min((self.chunk.max(count) - have) as u64);
        self.window
            .read(store, self.run, self.offset, wanted as usize)?;
        self.offset += wanted;
        if self.window.bytes().len() < count {
            return Err(SortFault::Device);
        }
        Ok(())
    }
}
