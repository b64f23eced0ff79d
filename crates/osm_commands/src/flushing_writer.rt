//! Writers that hand on what they were given.

ghost use Rattle.std.specs.Prelude.{◌≡◌, Bool, IfErr, OnOk, true};
ghost use Rattle.std.specs.Io.KnownBytes.{Keeps};
ghost use Rattle.osm_commands.specs.Written.{IsFlushOutcome};

use crate::command_fault::CommandFault;
use std::io;
use std::io::{Stdout, Write};

/// A writer that may hold bytes back until it is flushed, as a file or standard output does.
pub trait FlushingWriter: Write {
    /// Whether all that was written has been handed on.
    ghost is_flushed: { Self → Bool };

    /// Hands on what is held back. Refused with `Device` where the writer's flush fails.
    fn flush_all(&mut self) -> Result<(), CommandFault>
        ensures flushed { OnOk result (is_flushed self.new ≡ true) }
        ensures kept { Keeps (Self.contents self.old) (Self.contents self.new) }
        ensures device { IfErr result (λ fault. fault ≡ CommandFault.Device) };
}

impl FlushingWriter for Stdout {
    ghost is_flushed = { λ _. true };

    fn flush_all(&mut self) -> Result<(), CommandFault> {
        flush_outcome(self.flush())
    }
}

/// Nothing is held back.
impl FlushingWriter for Vec<u8> {
    ghost is_flushed = { λ _. true };

    fn flush_all(&mut self) -> Result<(), CommandFault> {
        Ok(())
    }
}

/// A flush that failed is a device that failed: what [`FlushingWriter::flush_all`] gives of a writer's own flush.
pub fn flush_outcome(flushed: io::Result<()>) -> Result<(), CommandFault>
    ensures { IsFlushOutcome flushed result }
{
    match flushed {
        Ok(()) => Ok(()),
        Err(_) => Err(CommandFault::Device),
    }
}
