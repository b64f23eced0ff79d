//! Writing a document.

ghost use Rattle.std.specs.Prelude.{◌≡◌, IfErr, OnOk, true};
ghost use Rattle.std.specs.Io.KnownBytes.{Appends};
ghost use Rattle.byte_io.specs.Written.{AppendsFront};
ghost use Rattle.osm_forms.specs.Documents.{document_in};

use crate::command_fault::CommandFault;
use crate::flushing_writer::FlushingWriter;
use byte_io::NotWritten;
use osm_forms::Form;

/// Writes the document around the text of an answer's objects in this form, and flushes the writer. Nothing is copied.
///
/// Refused with `Device` where a call fails or takes nothing; a beginning of the document is written then.
pub fn write_document<W: FlushingWriter>(
    writer: &mut W,
    form: Form,
    text: &[u8],
) -> Result<(), CommandFault>
    // The whole document is written.
    ensures whole { OnOk result (Appends (W.contents writer.old) (W.contents writer.new)
        (document_in form text.now)) }
    // Whatever happens, no more than a beginning of it.
    ensures begun { AppendsFront (W.contents writer.old) (W.contents writer.new)
        (document_in form text.now) }
    // Nothing of it is held back: a flush that fails is a fault.
    ensures flushed { OnOk result (W.is_flushed writer.new ≡ true) }
    ensures device { IfErr result (λ fault. fault ≡ CommandFault.Device) }
{
    match write_parts(writer, form, text) {
        Ok(()) => writer.flush_all(),
        Err(_) => Err(CommandFault::Device),
    }
}

/// Writes the document, and doesn't flush.
fn write_parts<W: FlushingWriter>(writer: &mut W, form: Form, text: &[u8]) -> Result<(), NotWritten>
    ensures whole { OnOk result (Appends (W.contents writer.old) (W.contents writer.new)
        (document_in form text.now)) }
    ensures begun { AppendsFront (W.contents writer.old) (W.contents writer.new)
        (document_in form text.now) }
{
    let parts = form.document_parts(text);
    byte_io::write_whole(writer, parts.header)?;
    byte_io::write_whole(writer, parts.body)?;
    byte_io::write_whole(writer, parts.trailer)
}
