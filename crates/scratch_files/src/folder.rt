//! Where scratch files are made.

use crate::store::ScratchStore;
use external_sort::{StoreFault, StoreMaker};
use std::alloc::Global;
use std::fs::{File, OpenOptions};
use std::io::ErrorKind;
use std::os::unix::fs::OpenOptionsExt;
use std::{fs, io};

/// How many names are tried for a scratch file.
const NAME_LIMIT: u32 = 1_000;

/// A folder for scratch files. A file is made as `osm_mirror-scratch.N`, with the first number N below 1,000 that is free,
/// may be read and written by its owner alone, and loses its name at once.
#[derive(Clone, Copy)]
pub struct ScratchFolder<'a> {
    rt: &'a HostRuntime,
    path: &'a str,
}

impl<'a> ScratchFolder<'a> {
    /// The folder with this path. It isn't looked at before a file is made.
    pub fn new(rt: &'a HostRuntime, path: &'a str) -> ScratchFolder<'a> {
        ScratchFolder { rt, path }
    }

    /// The path of the folder.
    pub fn path(&self) -> &'a str {
        self.path
    }

    /// The system's number of the error for which no file can be made in the folder now; none where one can be.
    pub fn error(&self) -> Option<i32> {
        match self.make_file() {
            Ok(_) => None,
            Err(error) => error.raw_os_error(),
        }
    }

    /// A file for reading and writing that has no name any more.
    fn make_file(&self) -> io::Result<File> {
        for number in 0..NAME_LIMIT {
            let name = format!(in self.rt.alloc(); "{}/osm_mirror-scratch.{number}", self.path)?;
            match open_new(self.rt, &name) {
                Ok(file) => {
                    fs::remove_file(self.rt, &name)?;
                    return Ok(file);
                }
                Err(error) if error.kind() == ErrorKind::AlreadyExists => {}
                Err(error) => return Err(error),
            }
        }
        Err(io::Error::from(ErrorKind::AlreadyExists))
    }
}

/// A file that isn't there yet.
fn open_new(rt: &HostRuntime, name: &str) -> io::Result<File> {
    OpenOptions::new()
        .read(true)
        .write(true)
        .create_new(true)
        .mode(0o600)
        .open(rt, name)
}

impl StoreMaker<ScratchStore> for ScratchFolder<'_> {
    fn make_store(&mut self) -> Result<ScratchStore, StoreFault> {
        let Ok(file) = self.make_file() else {
            return Err(StoreFault);
        };
        Ok(ScratchStore::new(self.rt.alloc(), file))
    }
}
