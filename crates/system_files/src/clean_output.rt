//! Standard output, free of what shows how far a command is.

ghost use Rattle.std.specs.Prelude.{true};

use osm_commands::{CommandFault, FlushingWriter, flush_outcome};
use std::io;
use std::io::{IsTerminal, Stdout, Write};

/// Standard output. Standard error may be the same terminal, so the line there that shows how far a command is is taken
/// away before the first byte is written.
#[derive(Drop)]
pub struct CleanOutput<'a> {
    rt: &'a HostRuntime,
    output: Stdout,
    is_written: bool,
}

impl<'a> CleanOutput<'a> {
    /// Nothing is written yet.
    pub fn new(rt: &'a HostRuntime) -> CleanOutput<'a> {
        CleanOutput {
            rt,
            output: rt.stdout(),
            is_written: false,
        }
    }
}

impl Write for CleanOutput<'_> {
    fn write(&mut self, buf: &[u8]) -> io::Result<usize> {
        if !self.is_written {
            self.is_written = true;
            let errors = &mut self.rt.stderr();
            if errors.is_terminal() {
                let _ = write!(errors, "\r\x1b[2K");
            }
        }
        self.output.write(buf)
    }

    fn flush(&mut self) -> io::Result<()> {
        self.output.flush()
    }
}

impl FlushingWriter for CleanOutput<'_> {
    ghost is_flushed = { λ _. true };

    fn flush_all(&mut self) -> Result<(), CommandFault> {
        flush_outcome(self.flush())
    }
}
