//! Writing a whole text.

ghost use Rattle.std.specs.Prelude.{◌≡◌, IfErr, OnOk, true};
ghost use Rattle.std.specs.Io.KnownBytes.{Appends};
ghost use Rattle.byte_io.specs.Written.{AppendsFront};

use crate::command_fault::CommandFault;
use crate::flushing_writer::FlushingWriter;

/// Writes the text as [`byte_io::write_whole`] does, and flushes the writer.
///
/// Refused with `Device` where a call fails or takes nothing; a beginning of the text is written then.
pub fn write_whole<W: FlushingWriter>(writer: &mut W, text: &[u8]) -> Result<(), CommandFault>
    // The whole text is written.
    ensures whole { OnOk result (Appends (W.contents writer.old) (W.contents writer.new) text.now) }
    // Whatever happens, no more than a beginning of it.
    ensures begun { AppendsFront (W.contents writer.old) (W.contents writer.new) text.now }
    // Nothing of it is held back: a flush that fails is a fault.
    ensures flushed { OnOk result (W.is_flushed writer.new ≡ true) }
    ensures device { IfErr result (λ fault. fault ≡ CommandFault.Device) }
{
    match byte_io::write_whole(writer, text) {
        Ok(()) => writer.flush_all(),
        Err(_) => Err(CommandFault::Device),
    }
}
