//! The file of a pack.

use node_pack::{Place, ReadAt, ReadFault};
use std::cell::Cell;
use std::fs::File;
use std::os::unix::fs::FileExt;

/// A pack's file, which is opened when it is first asked for its size, so that a query that doesn't read opens none. A file
/// that can't be opened is a device that fails. What the system said of the call that failed last is left where the caller
/// sees it.
#[derive(Drop)]
pub struct PackFile<'a> {
    rt: &'a HostRuntime,
    path: &'a str,
    file: Option<File>,
    error: &'a Cell<Option<i32>>,
}

impl<'a> PackFile<'a> {
    /// The file with this name, not opened yet.
    pub fn new(rt: &'a HostRuntime, path: &'a str, error: &'a Cell<Option<i32>>) -> PackFile<'a> {
        PackFile {
            rt,
            path,
            file: None,
            error,
        }
    }
}

impl ReadAt for PackFile<'_> {
    /// A device may give anything.
    ghost reads = { λ file bytes. ⊥ };

    fn size(&mut self) -> Result<u64, ReadFault> {
        if let Some(file) = &mut self.file {
            return file.size();
        }
        let mut file = match File::open(self.rt, self.path) {
            Ok(file) => file,
            Err(error) => {
                self.error.set(error.raw_os_error());
                return Err(ReadFault::Device);
            }
        };
        let size = file.size()?;
        self.file = Some(file);
        Ok(size)
    }

    fn read_at(&mut self, offset: u64, len: usize, into: &mut Vec<u8>) -> Result<(), ReadFault> {
        let Some(file) = &self.file else {
            return Err(ReadFault::Device);
        };
        let start = into.len();
        let Some(end) = start.checked_add(len) else {
            return Err(ReadFault::Memory);
        };
        into.resize(end, 0)?;
        match file.read_exact_at(&mut into.as_mut_slice()[start..], offset) {
            Ok(()) => Ok(()),
            Err(error) => {
                self.error.set(error.raw_os_error());
                Err(ReadFault::Device)
            }
        }
    }

    /// The system reads it from a device of its own.
    fn is_remote(&self) -> bool {
        false
    }

    /// It takes no hint.
    fn expect(&mut self, _places: &[Place]) {}
}
