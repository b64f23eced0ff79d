//! Packs in files.

use crate::place::Place;
use crate::read_at::{ReadAt, ReadFault};
use std::fs::File;
use std::io::{Seek, SeekFrom};
use std::os::unix::fs::FileExt;

impl ReadAt for File {
    /// A device may give anything.
    ghost reads = { λ file bytes. ⊥ };

    /// How many bytes the file has now.
    fn size(&mut self) -> Result<u64, ReadFault> {
        self.seek(SeekFrom::End(0)).map_err(|_| ReadFault::Device)
    }

    /// The place of the file stays where it is.
    fn read_at(&mut self, offset: u64, len: usize, into: &mut Vec<u8>) -> Result<(), ReadFault> {
        let start = into.len();
        let Some(end) = start.checked_add(len) else {
            return Err(ReadFault::Memory);
        };
        into.resize(end, 0)?;
        match self.read_exact_at(&mut into.as_mut_slice()[start..], offset) {
            Ok(()) => Ok(()),
            Err(_) => Err(ReadFault::Device),
        }
    }

    /// The system reads it from a device of its own.
    fn is_remote(&self) -> bool {
        false
    }

    /// It takes no hint.
    fn expect(&mut self, _places: &[Place]) {}
}
