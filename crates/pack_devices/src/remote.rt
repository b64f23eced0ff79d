//! Bytes far away, and what is asked of them.

use node_pack::{Place, ReadAt, ReadFault};
use std::alloc::Global;
use std::cell::Cell;

/// What a device has seen.
#[derive(Drop)]
pub struct Seen {
    /// How often it was told what to expect.
    pub rounds: Cell<u32>,
    /// How many places it was told.
    pub places: Cell<u32>,
    /// How many of them it had been told before.
    pub again: Cell<u32>,
    /// How many reads it wasn't told of before.
    pub sudden: Cell<u32>,
}

impl Seen {
    /// Nothing was told and nothing read.
    pub fn new() -> Seen {
        Seen {
            rounds: Cell::new(0),
            places: Cell::new(0),
            again: Cell::new(0),
            sudden: Cell::new(0),
        }
    }
}

/// One more.
fn count(cell: &Cell<u32>) {
    cell.set(cell.get().saturating_add(1));
}

/// Bytes far away.
#[derive(Drop)]
pub struct Remote<'a> {
    bytes: &'a [u8],
    expected: Vec<Place>,
    seen: &'a Seen,
    /// After so many reads one fails; none does where it is `None`.
    pub before: Option<u32>,
}

impl<'a> Remote<'a> {
    /// These bytes, of whose reads is noted what a device sees. No read fails.
    pub fn new(alloc: Global, bytes: &'a [u8], seen: &'a Seen) -> Remote<'a> {
        Remote {
            bytes,
            expected: Vec::new(alloc),
            seen,
            before: None,
        }
    }
}

impl<'a> ReadAt for Remote<'a> {
    ghost reads = { λ device bytes. ⊥ };

    fn size(&mut self) -> Result<u64, ReadFault> {
        Ok(self.bytes.len() as u64)
    }

    fn read_at(&mut self, offset: u64, len: usize, into: &mut Vec<u8>) -> Result<(), ReadFault> {
        match self.before {
            Some(0) => {
                self.before = None;
                return Err(ReadFault::Device);
            }
            Some(more) => self.before = Some(more.saturating_sub(1)),
            None => {}
        }
        let is_expected = self
            .expected
            .iter()
            .any(|place| place.at == offset && len <= place.len as usize);
        if !is_expected {
            count(&self.seen.sudden);
        }
        let mut bytes = self.bytes;
        bytes.read_at(offset, len, into)
    }

    fn is_remote(&self) -> bool {
        true
    }

    fn expect(&mut self, places: &[Place]) {
        count(&self.seen.rounds);
        for place in places {
            count(&self.seen.places);
            if self.expected.contains(place) {
                count(&self.seen.again);
            }
            if self.expected.push(*place).is_err() {
                return;
            }
        }
    }
}
