//! Writing a whole text.

ghost use Rattle.std.specs.Prelude.{OnOk};
ghost use Rattle.std.specs.Io.KnownBytes.{Appends};
ghost use Rattle.byte_io.specs.Written.{AppendsFront};

use crate::not_written::NotWritten;
use std::io::Write;

/// Writes the whole text, in as few calls as the writer needs. It isn't flushed.
///
/// Fails where a call fails or takes no byte; some first part of the text, possibly none, is written then. (std's
/// `write_all` isn't used, since its contract doesn't say what is written where it fails.)
pub fn write_whole<W: Write>(writer: &mut W, text: &[u8]) -> Result<(), NotWritten>
    // The whole text is written.
    ensures whole { OnOk result (Appends (W.contents writer.old) (W.contents writer.new) text.now) }
    // Whatever happens, no more than a beginning of it.
    ensures begun { AppendsFront (W.contents writer.old) (W.contents writer.new) text.now }
{
    let mut done = 0;
    while done < text.len() {
        match writer.write(&text[done..]) {
            Ok(0) | Err(_) => return Err(NotWritten),
            Ok(taken) => done += taken,
        }
    }
    Ok(())
}
