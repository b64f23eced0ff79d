//! A file that is opened when it is first read.

ghost use Rattle.std.specs.Prelude.{◌≡◌};

use std::fs::File;
use std::io;
use std::io::Read;
use std::marker::Model;

/// A file that is opened when it is first read, so that each file's turn comes when the command reads it. A
/// file that can't be opened is a reader that fails. Contracts see its path.
#[derive(Drop)]
pub struct InputFile<'a> {
    rt: &'a HostRuntime,
    path: &'a str,
    file: Option<File>,
}

impl<'a> Model for InputFile<'a> {
    ghost use Rattle.std.specs.Prelude.{List, ℕ};

    ghost Value = { List ℕ };

    ghost view = { λ a. a.path.now };
}

impl<'a> InputFile<'a> {
    /// The file with this name, not opened yet.
    pub fn new(rt: &'a HostRuntime, path: &'a str) -> InputFile<'a>
        ensures { result ≡ path.now }
    {
        InputFile {
            rt,
            path,
            file: None,
        }
    }
}

impl Read for InputFile<'_> {
    fn read(&mut self, buf: &mut [u8]) -> io::Result<usize> {
        if let Some(file) = &mut self.file {
            return file.read(buf);
        }
        let mut file = File::open(self.rt, self.path)?;
        let len = file.read(buf)?;
        self.file = Some(file);
        Ok(len)
    }
}
