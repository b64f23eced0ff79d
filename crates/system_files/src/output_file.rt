//! A file that is written beside its place.

ghost use Rattle.std.specs.Prelude.{◌≡◌, true};

use crate::in_words::Trouble;
use osm_commands::{CommandFault, FlushingWriter, ReplacingWriter, flush_outcome};
use std::fs::{File, OpenOptions};
use std::io::{BufWriter, ErrorKind, Write};
use std::marker::Model;
use std::{fs, io};

/// How many names are tried for the file beside a place.
const NAME_LIMIT: u32 = 100;

/// How many bytes a buffered file holds back, at most: what is longer is handed on as it stands.
const BUFFER_LEN: usize = 65_536;

/// A file that is made when it is first written or flushed: so a refused command leaves the file that was there. It is made
/// beside its place, as `NAME.0.part` (or with the next number that is free), and is renamed once it is whole and on the
/// device. So a full disk, or a program that is killed, leaves the file that was there too. What is no regular file, as a
/// link, a pipe or a terminal, is written as it stands. A file that can't be made is a writer that fails. Contracts see its
/// path.
#[derive(Drop)]
pub struct OutputFile<'a> {
    rt: &'a HostRuntime,
    path: &'a str,
    file: Option<BufWriter<File>>,
    /// How many bytes may be held back.
    buffer_len: usize,
    /// The name that the file has until it is put in its place; none where it is there from the first.
    aside: Option<String>,
    /// The system's number of the last failure.
    error: Option<i32>,
}

impl<'a> Model for OutputFile<'a> {
    ghost use Rattle.std.specs.Prelude.{List, ℕ};

    ghost Value = { List ℕ };

    ghost view = { λ a. a.path.now };
}

impl<'a> OutputFile<'a> {
    /// The file with this name, not made yet.
    pub fn new(rt: &'a HostRuntime, path: &'a str) -> OutputFile<'a>
        ensures { result ≡ path.now }
    {
        OutputFile::with_buffer(rt, path, 0)
    }

    /// The same for a text that comes in many small pieces: up to 64 KiB are held back until it is flushed. They take memory
    /// when the file is made, and where that is refused the writer fails.
    pub fn buffered(rt: &'a HostRuntime, path: &'a str) -> OutputFile<'a>
        ensures { result ≡ path.now }
    {
        OutputFile::with_buffer(rt, path, BUFFER_LEN)
    }

    fn with_buffer(rt: &'a HostRuntime, path: &'a str, buffer_len: usize) -> OutputFile<'a>
        ensures { result ≡ path.now }
    {
        OutputFile {
            rt,
            path,
            file: None,
            buffer_len,
            aside: None,
            error: None,
        }
    }

    /// What the system said of the file's last failure.
    pub fn trouble(&self) -> Trouble<'a> {
        Trouble {
            name: self.path,
            error: self.error,
        }
    }

    /// Removes what was written and isn't in its place.
    pub fn discard(&mut self) {
        if let Some(name) = self.aside.take() {
            // Where it can't be removed, the file that was there stays all the same.
            let _ = fs::remove_file(self.rt, &name);
        }
    }

    /// Makes the file, where it isn't made yet.
    fn make(&mut self) -> io::Result<()> {
        if self.file.is_none() {
            let made = self.made();
            let file = self.noted(made)?;
            let buffered = BufWriter::with_capacity(self.rt.alloc(), self.buffer_len, file)?;
            self.file = Some(buffered);
        }
        Ok(())
    }

    /// The file, made beside its place, with the mode of the file that is there. What is no regular file is opened.
    fn made(&mut self) -> io::Result<File> {
        match fs::symlink_metadata(self.rt, self.path) {
            Ok(found) if !found.is_file() => File::create(self.rt, self.path),
            Ok(found) => {
                let file = self.made_beside()?;
                file.set_permissions(found.permissions())?;
                Ok(file)
            }
            Err(_) => self.made_beside(),
        }
    }

    /// A new file beside its place.
    fn made_beside(&mut self) -> io::Result<File> {
        for number in 0..NAME_LIMIT {
            let name = format!(in self.rt.alloc(); "{}.{number}.part", self.path)?;
            match new_file(self.rt, &name) {
                Ok(file) => {
                    self.aside = Some(name);
                    return Ok(file);
                }
                Err(error) if error.kind() == ErrorKind::AlreadyExists => {}
                Err(error) => return Err(error),
            }
        }
        Err(io::Error::from(ErrorKind::AlreadyExists))
    }

    /// Waits until the device has all that was written beside the place.
    fn reach_device(&mut self) -> io::Result<()> {
        self.flush()?;
        let reached = match (&self.file, &self.aside) {
            (Some(file), Some(_)) => file.get_ref().sync_all(),
            _ => Ok(()),
        };
        self.noted(reached)
    }

    /// Renames the file to its place.
    fn settle(&mut self) -> io::Result<()> {
        if let Some(name) = &self.aside {
            fs::rename(self.rt, name, self.path)?;
            self.aside = None;
        }
        Ok(())
    }

    /// The same outcome; a failure is kept.
    fn noted<T>(&mut self, outcome: io::Result<T>) -> io::Result<T>
        ensures { result ≡ outcome }
    {
        if let Err(error) = &outcome {
            self.error = error.raw_os_error();
        }
        outcome
    }
}

/// A file that isn't there yet, opened for writing.
fn new_file(rt: &HostRuntime, name: &str) -> io::Result<File> {
    OpenOptions::new()
        .write(true)
        .create_new(true)
        .open(rt, name)
}

impl Write for OutputFile<'_> {
    fn write(&mut self, buf: &[u8]) -> io::Result<usize> {
        self.make()?;
        let written = match &mut self.file {
            Some(file) => file.write(buf),
            None => Ok(0),
        };
        self.noted(written)
    }

    fn flush(&mut self) -> io::Result<()> {
        self.make()?;
        let flushed = match &mut self.file {
            Some(file) => file.flush(),
            None => Ok(()),
        };
        self.noted(flushed)
    }
}

impl FlushingWriter for OutputFile<'_> {
    ghost is_flushed = { λ _. true };

    /// The device has it then: so of two files both are there before one of them is put in its place.
    fn flush_all(&mut self) -> Result<(), CommandFault> {
        flush_outcome(self.reach_device())
    }
}

impl ReplacingWriter for OutputFile<'_> {
    ghost is_in_place = { λ _. true };

    fn put_in_place(&mut self) -> Result<(), CommandFault> {
        let settled = self.settle();
        flush_outcome(self.noted(settled))
    }
}
