//! A folder of change files.

ghost use Rattle.std.specs.Option.{option_copied};
ghost use Rattle.std.specs.Prelude.{◌≡◌, ◌⊎◌, IfErr, None};

use osm_commands::CommandFault;
use osm_serving::ChangeSource;
use std::fs::{File, Metadata};
use std::io::ErrorKind;
use std::marker::Model;
use std::os::unix::fs::MetadataExt;
use std::{fs, io};

/// The folder in which a site puts the change files of its publications, each as `<sequence>.opl`; or no folder at all,
/// in which no file is found. A file that was refused is given again once it has changed. Contracts see the folder's name.
#[derive(Drop)]
pub(crate) struct ChangeFolder<'a> {
    rt: &'a HostRuntime,
    folder: Option<&'a str>,
    /// The file that was given last.
    given: Option<Mark>,
    /// The last one that was refused for what it says.
    refused: Option<Mark>,
}

/// By what a file is told from others, and from what it was before it was written anew.
#[derive(Clone, Copy, Drop, PartialEq, Eq)]
struct Mark {
    sequence: u64,
    device: u64,
    number: u64,
    size: u64,
    /// When its bytes or its entry were last changed, in seconds and nanoseconds.
    changed: (i64, i64),
}

impl Mark {
    /// The mark of the file of a sequence number.
    fn of(sequence: u64, found: &Metadata) -> Mark {
        Mark {
            sequence,
            device: found.dev(),
            number: found.ino(),
            size: found.len(),
            changed: (found.ctime(), found.ctime_nsec()),
        }
    }
}

impl<'a> Model for ChangeFolder<'a> {
    ghost use Rattle.std.specs.Option.{option_copied};
    ghost use Rattle.std.specs.Prelude.{List, Option, ℕ};

    ghost Value = { Option (List ℕ) };

    ghost view = { λ d. option_copied d.folder };
}

impl<'a> ChangeFolder<'a> {
    /// The folder of this name, which isn't looked at yet.
    pub(crate) fn new(rt: &'a HostRuntime, folder: Option<&'a str>) -> ChangeFolder<'a>
        ensures { result ≡ option_copied folder.entry }
    {
        ChangeFolder {
            rt,
            folder,
            given: None,
            refused: None,
        }
    }

    /// The file of this name, where it is there and isn't as it was when it was refused.
    fn open_changed(&mut self, sequence: u64, path: &str) -> io::Result<Option<File>> {
        let found = fs::metadata(self.rt, path)?;
        let mark = Mark::of(sequence, &found);
        if self.refused == Some(mark) {
            return Ok(None);
        }
        // Opening a pipe could take for ever.
        if !found.is_file() {
            return Err(io::Error::from(ErrorKind::InvalidInput));
        }
        let file = File::open(self.rt, path)?;
        self.given = Some(mark);
        Ok(Some(file))
    }
}

impl ChangeSource for ChangeFolder<'_> {
    type Reader = File;

    ghost asked = { λ _. None };

    ghost found = { λ _. None };

    fn change_file(&mut self, sequence: u64) -> Result<Option<File>, CommandFault> {
        let Some(folder) = self.folder else {
            return Ok(None);
        };
        let path = format!(in self.rt.alloc(); "{folder}/{sequence}.opl")?;
        match self.open_changed(sequence, &path) {
            Ok(file) => Ok(file),
            Err(error) => match error.kind() {
                ErrorKind::NotFound => Ok(None),
                ErrorKind::OutOfMemory => Err(CommandFault::Memory),
                _ => Err(CommandFault::Device),
            },
        }
    }

    fn note_refused(&mut self) {
        self.refused = self.given;
    }
}
