//! Bytes that are written together.

use external_sort::StoreFault;
use std::alloc::Global;
use std::fs::File;
use std::os::unix::fs::FileExt;

/// How many bytes are written at once, at least.
const PIECE_LEN: usize = 65_536;

/// Bytes that a file will have at its end, and aren't written yet: so that many short ones take one call of the system.
#[derive(Drop)]
pub(crate) struct Pending {
    bytes: Vec<u8>,
    /// How many bytes the file has.
    written: u64,
}

impl Pending {
    /// No bytes, and an empty file. It takes no memory yet.
    pub(crate) fn new(alloc: Global) -> Pending {
        Pending {
            bytes: Vec::new(alloc),
            written: 0,
        }
    }

    /// How many bytes the file has, with those that are pending.
    pub(crate) fn end(&self) -> u64 {
        self.written.saturating_add(self.bytes.len() as u64)
    }

    /// Adds bytes at the end. Refused where the file can't be written, or memory is refused.
    pub(crate) fn add(&mut self, file: &File, bytes: &[u8]) -> Result<(), StoreFault> {
        if self.bytes.len().saturating_add(bytes.len()) > PIECE_LEN {
            self.write(file)?;
        }
        if bytes.len() >= PIECE_LEN {
            write_at(file, bytes, self.written)?;
            self.written = self.written.saturating_add(bytes.len() as u64);
            return Ok(());
        }
        match self.bytes.extend_from_slice(bytes) {
            Ok(()) => Ok(()),
            Err(_) => Err(StoreFault),
        }
    }

    /// Writes what is pending. Refused where the file can't be written.
    pub(crate) fn write(&mut self, file: &File) -> Result<(), StoreFault> {
        write_at(file, &self.bytes, self.written)?;
        self.written = self.end();
        self.bytes.clear();
        Ok(())
    }
}

/// Writes bytes at an offset of a file.
fn write_at(file: &File, bytes: &[u8], offset: u64) -> Result<(), StoreFault> {
    match file.write_all_at(bytes, offset) {
        Ok(()) => Ok(()),
        Err(_) => Err(StoreFault),
    }
}
