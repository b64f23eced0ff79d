//! Lines that are written whole or not at all.

ghost use Rattle.std.specs.Prelude.{◌≡◌, ◌≤◌, [], IfOk, Some, length};
ghost use Rattle.osm_commands.specs.WholeLines.{GoesOn, IsHanded, IsTaken};

use crate::ready_writer::ReadyWriter;
use arrayvec::ArrayVec;
use byte_io::{NotWritten, split_once, write_whole};
use std::io;
use std::io::{ErrorKind, Write};
use std::marker::Model;

/// The most bytes of a line, with its line feed: what a pipe takes at once, or not at all.
const LINE_LIMIT: usize = 4_096;

/// Hands lines to a writer that may keep a write waiting: a line for which the writer isn't ready is dropped, and so is one
/// of more than 4,096 bytes, its line feed included. What is written is whole lines, in their order, each once; only where
/// the writer fails, a line may be cut. It takes no memory. Contracts see the writer, and what stands of a line that hasn't
/// ended yet.
#[derive(Drop)]
pub struct WholeLines<W> {
    writer: W,
    /// What stands of a line that hasn't ended yet.
    line: ArrayVec<u8, LINE_LIMIT>,
    /// The line has more bytes than fit.
    is_too_long: bool,
}

impl<W> Model for WholeLines<W> {
    ghost use Rattle.std.specs.Prelude.{None, Some, if◌then◌else◌};
    ghost use Rattle.osm_commands.specs.WholeLines.{Lines};

    ghost Value = { Lines W };

    ghost view = { λ l. record { writer = l.writer; line = if l.is_too_long then None else Some l.line.items } };
}

impl<W: ReadyWriter> WholeLines<W> {
    /// No line was begun yet.
    pub fn new(writer: W) -> WholeLines<W>
        ensures { result ≡ record { writer = writer; line = Some [] } }
    {
        WholeLines {
            writer,
            line: ArrayVec::new(),
            is_too_long: false,
        }
    }

    /// Takes the bytes up to the first line feed, or all of them, and tells how many these are. With a line feed the line
    /// has ended: it is written, or dropped where it is too long or the writer isn't ready.
    ///
    /// Refused where the writer fails, or takes nothing though it is ready. A beginning of the line is written then, and the
    /// next line begins all the same.
    pub fn put(&mut self, bytes: &[u8]) -> Result<usize, NotWritten>
        ensures taken { IsTaken self.old.line bytes.now result self.new.line
            (W.contents self.old.writer) (W.contents self.new.writer) }
        ensures few { IfOk result (λ count. count ≤ length bytes.now) }
    {
        let Some((front, _)) = split_once(bytes, b'\n') else {
            self.go_on(bytes);
            return Ok(bytes.len());
        };
        let end = front.len() + 1;
        self.go_on(&bytes[..end]);
        self.hand()?;
        Ok(end)
    }

    /// Goes on with the line.
    fn go_on(&mut self, bytes: &[u8])
        ensures line { GoesOn self.old.line bytes.now self.new.line }
        ensures writer { self.new.writer ≡ self.old.writer }
    {
        if self.line.try_extend_from_slice(bytes).is_err() {
            self.is_too_long = true;
        }
    }

    /// Hands on the line that has ended, and begins the next.
    fn hand(&mut self) -> Result<(), NotWritten>
        ensures handed { IsHanded self.old.line result (W.contents self.old.writer)
            (W.contents self.new.writer) }
        ensures begun { self.new.line ≡ Some [] }
    {
        let handed = self.write_line();
        self.line.clear();
        self.is_too_long = false;
        handed
    }

    /// Writes the line, where it fits and the writer is ready.
    fn write_line(&mut self) -> Result<(), NotWritten>
        ensures { IsHanded self.old.line result (W.contents self.old.writer)
            (W.contents self.new.writer) }
    {
        if self.is_too_long || !self.writer.is_ready() {
            return Ok(());
        }
        write_whole(&mut self.writer, self.line.as_slice())
    }
}

impl<W: ReadyWriter> Write for WholeLines<W> {
    fn write(&mut self, buf: &[u8]) -> io::Result<usize> {
        match self.put(buf) {
            Ok(count) => Ok(count),
            Err(NotWritten) => Err(io::Error::from(ErrorKind::Other)),
        }
    }

    /// A line that hasn't ended is held back.
    fn flush(&mut self) -> io::Result<()> {
        Ok(())
    }
}
