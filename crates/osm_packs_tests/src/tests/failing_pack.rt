//! A pack on a device that fails.

use super::four_objects::PACK;
use node_pack::{Place, ReadAt, ReadFault};

/// The pack of the four objects on a device that fails at one of its calls.
#[derive(Drop)]
pub(super) struct FailingPack {
    bytes: &'static [u8],
    /// The call at which it fails, from 1.
    fails_at: usize,
    /// How often it was called.
    calls: usize,
}

impl FailingPack {
    pub(super) fn new(fails_at: usize) -> FailingPack {
        FailingPack {
            bytes: PACK,
            fails_at,
            calls: 0,
        }
    }

    /// Whether this call fails.
    fn fails(&mut self) -> bool {
        self.calls = self.calls.saturating_add(1);
        self.calls == self.fails_at
    }
}

impl ReadAt for FailingPack {
    ghost reads = { λ pack bytes. ⊥ };

    fn size(&mut self) -> Result<u64, ReadFault> {
        if self.fails() {
            return Err(ReadFault::Device);
        }
        self.bytes.size()
    }

    fn read_at(&mut self, offset: u64, len: usize, into: &mut Vec<u8>) -> Result<(), ReadFault> {
        if self.fails() {
            return Err(ReadFault::Device);
        }
        self.bytes.read_at(offset, len, into)
    }

    fn is_remote(&self) -> bool {
        false
    }

    fn expect(&mut self, _places: &[Place]) {}
}
