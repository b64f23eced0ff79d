//! A reader of the nodes of a level.

ghost use Rattle.std.specs.Prelude.{◌≡◌, ◌≢◌, ◌≤◌, ◌<◌, ◌+◌, Err, OnOk, drop, false, length, take, true};
ghost use Rattle.external_sort.specs.Runs.{run_at};

use external_sort::RunStore;
use tree_stream::ReadBackFault;

/// The nodes of a level, one after the other in the first run of a store, and how far they were read.
#[derive(Drop)]
pub(crate) struct NodeReader<S: RunStore> {
    store: S,
    /// How many bytes the run has.
    size: u64,
    /// How many of them were read.
    offset: u64,
}

impl<S: RunStore> NodeReader<S> {
    /// Before the first node.
    pub(crate) fn new(store: S, size: u64) -> NodeReader<S>
        ensures { result ≡ record { store = store; size = size; offset = 0 } }
    {
        NodeReader {
            store,
            size,
            offset: 0,
        }
    }

    /// Goes back to the first node.
    pub(crate) fn rewind(&mut self)
        ensures { self.new ≡ record self.old { offset = 0 } }
    {
        self.offset = 0;
    }

    /// Reads the next node, of this length, in place of what was read.
    pub(crate) fn read(&mut self, len: u32, into: &mut Vec<u8>) -> Result<(), ReadBackFault>
        ensures read { S.is_true ≡ true → OnOk result (into.new.items
            ≡ take len (drop self.old.offset (run_at 0 (S.runs self.old.store)))) }
        ensures runs { OnOk result (S.runs self.new.store ≡ S.runs self.old.store) }
        ensures offset { OnOk result (self.new.offset ≡ self.old.offset + len) }
        ensures size { self.new.size ≡ self.old.size }
        ensures given { S.may_refuse ≡ false → 0 < length (S.runs self.old.store)
            → self.old.size ≤ length (run_at 0 (S.runs self.old.store))
            → self.old.offset + len ≤ self.old.size → result ≢ Err ReadBackFault.Device }
    {
        let len = u64::from(len);
        if len > self.size.saturating_sub(self.offset) {
            return Err(ReadBackFault::Device);
        }
        into.resize(len as usize, 0)?;
        if self
            .store
            .read(0, self.offset, into.as_mut_slice())
            .is_err()
        {
            return Err(ReadBackFault::Device);
        }
        self.offset += len;
        Ok(())
    }
}
