//! Reading a head.

ghost use Rattle.std.specs.Prelude.{◌≡◌, IfErr, IfOk};
ghost use Rattle.byte_io.specs.Pieces.{pieces};
ghost use Rattle.pack_head.specs.Heads.{IsHead, head_text, line_feed};
ghost use Rattle.pack_head.specs.Lines.{IsFault};

use crate::fault::HeadFault;
use crate::files::read_files;
use crate::front::read_front;
use crate::head::Head;
use crate::lines::Lines;
use std::alloc::Global;

/// The head whose text this is (this project's heads, docs/FORMATS.md). The names are slices of the text; no bytes are copied. Linear
/// in the text; the memory that it takes grows with the files that the text names.
///
/// Refused with the number of the first line that is wrong or missing; `Memory` may come in place of any answer.
pub fn read_head<'a>(alloc: Global, text: &'a [u8]) -> Result<Head<'a>, HeadFault>
    // The text is that of the head that is read,
    ensures read { IfOk result (λ head. text.now ≡ head_text head) }
    // which has 1 to 65,535 files, each with a name that fits and of a length within its limit.
    ensures head { IfOk result IsHead }
    // A line that is told is the first one that is wrong or missing.
    ensures refused { IfErr result (IsFault 0 (pieces line_feed text.now)) }
{
    let mut lines = Lines::of(text);
    let front = read_front(&mut lines)?;
    Ok(Head {
        root: front.root,
        sequence: front.sequence,
        manifest_at: front.manifest.at,
        manifest_len: front.manifest.len,
        files: read_files(alloc, lines)?,
    })
}
