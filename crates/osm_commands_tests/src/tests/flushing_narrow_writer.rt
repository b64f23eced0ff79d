//! A writer that takes few bytes a call, and can be flushed.

ghost use Rattle.std.specs.Prelude.{true};

use osm_commands::{CommandFault, FlushingWriter, flush_outcome};
use std::io;
use std::io::Write;
use test_devices::NarrowWriter;

/// A [`NarrowWriter`] with a flush.
#[derive(Drop)]
pub(super) struct FlushingNarrowWriter {
    pub(super) writer: NarrowWriter,
}

impl Write for FlushingNarrowWriter {
    fn write(&mut self, buf: &[u8]) -> io::Result<usize> {
        self.writer.write(buf)
    }

    fn flush(&mut self) -> io::Result<()> {
        self.writer.flush()
    }
}

impl FlushingWriter for FlushingNarrowWriter {
    ghost is_flushed = { λ _. true };

    fn flush_all(&mut self) -> Result<(), CommandFault> {
        flush_outcome(self.flush())
    }
}
