//! A writer whose text is put in its place.

ghost use Rattle.std.specs.Prelude.{true};

use osm_commands::{CommandFault, FlushingWriter, ReplacingWriter, flush_outcome};
use std::alloc::Global;
use std::io;
use std::io::Write;
use test_devices::{NarrowWriter, Stop};

/// A [`NarrowWriter`] with a flush, whose text is put in its place, or can't be.
#[derive(Drop)]
pub struct PlacingWriter {
    /// What takes the text.
    pub writer: NarrowWriter,
    /// Putting it in its place fails.
    pub fails: bool,
    /// It is in its place.
    pub is_placed: bool,
}

impl PlacingWriter {
    /// Nothing was written yet. It takes ten bytes a call, and stops so at this call; at none where it is 0. Putting its text in
    /// its place fails, or doesn't.
    pub fn new(alloc: Global, stops_at: usize, stop: Stop, fails: bool) -> PlacingWriter {
        PlacingWriter {
            writer: NarrowWriter {
                taken: Vec::new(alloc),
                at_once: 10,
                stops_at,
                stop,
                calls: 0,
            },
            fails,
            is_placed: false,
        }
    }
}

impl Write for PlacingWriter {
    fn write(&mut self, buf: &[u8]) -> io::Result<usize> {
        self.writer.write(buf)
    }

    fn flush(&mut self) -> io::Result<()> {
        self.writer.flush()
    }
}

impl FlushingWriter for PlacingWriter {
    ghost is_flushed = { λ _. true };

    fn flush_all(&mut self) -> Result<(), CommandFault> {
        flush_outcome(self.flush())
    }
}

impl ReplacingWriter for PlacingWriter {
    ghost is_in_place = { λ writer. writer.is_placed };

    fn put_in_place(&mut self) -> Result<(), CommandFault> {
        if self.fails {
            return Err(CommandFault::Device);
        }
        self.is_placed = true;
        Ok(())
    }
}
