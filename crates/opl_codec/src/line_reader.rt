//! The lines of a reader, one after the other.

ghost use Rattle.std.specs.Prelude.{◌≡◌, ◌⊎◌, ◌≤◌, ◌^◌, Err, List, Ok, false, true, IfErr, IfNone, IfSome, None, OnOk, Some, ℕ};
ghost use Rattle.std.specs.Io.KnownBytes.{prepend_known};
ghost use Rattle.opl_codec.specs.LineReads.{IsNext};

use crate::cause::OplCause;
use crate::change::Change;
use crate::fault::LoadFault;
use crate::line_buffer::LineBuffer;
use std::alloc::Global;
use std::io::Read;
use std::marker::Model;

/// Reads the lines of one reader, and tells what they say. Contracts see how many lines were read, the
/// bytes after them as far as the reader tells its bytes, and the fault that is answered from now on.
///
/// It reads pieces of at most 65,536 bytes, in time linear in the bytes, and holds one line at a time: a
/// line that lies whole in a piece is read where it lies, and one that crosses pieces is gathered in a
/// buffer that is used again. The last comment is kept in a buffer too.
#[derive(Drop)]
pub struct LineReader<R: Read> {
    reader: R,
    buffer: LineBuffer,
    /// The fault that was told.
    fault: Option<LoadFault>,
}

impl<R: Read> Model for LineReader<R> {
    ghost use Rattle.opl_codec.specs.LineReads.{LineRead};

    ghost Value = { LineRead };

    ghost use Rattle.opl_codec.specs.LineReaders.{place};
    ghost use Rattle.opl_codec.specs.internal.Buffering.{GoesOnUnless};

    ghost view = { λ r. record { at = place (R.remaining r.reader) r.buffer; fault = r.fault } };

    ghost invariant = { λ r. GoesOnUnless r.fault (R.remaining r.reader) r.buffer };
}

impl<R: Read> LineReader<R> {
    /// Nothing was read yet. It takes no memory.
    pub fn new(alloc: Global, reader: R) -> LineReader<R>
        ensures { result ≡ record { at = record { lines = 0; taken = 0; left = R.remaining reader; is_ended = false }; fault = None } }
    {
        LineReader {
            reader,
            buffer: LineBuffer::new(alloc),
            fault: None,
        }
    }

    /// What the next line says that says something (see `read_line`), and its number from 1; `None` at
    /// the end. Skipped lines are passed over. Lines end with LF, which the last may lack. The reader ends
    /// where it gives no bytes; nothing is read after that.
    ///
    /// Refused with the line's own fault, where `LineTooLong` is reported as soon as too many bytes of a
    /// line were read, whether it ends or not; with `ReaderFailed` or `Endless` (2^32 reads without an
    /// end) at byte 0 of the line that was being read; and with `Memory`, at line 0 and byte 0. Later
    /// calls are refused with the same fault, and read nothing.
    pub fn next_change(&mut self) -> Result<Option<(u64, Change)>, LoadFault>
        // A fault is told again.
        ensures again { IfSome self.old.fault (λ fault. (result ≡ Err fault)
            × (self.new ≡ self.old)) }
        // What is told is what comes next,
        ensures next { IfNone self.old.fault (IsNext self.old.at self.new.at result) }
        // nothing more after the end,
        ensures over { IfNone self.old.fault (self.old.at.is_ended ≡ true → (result ≡ Ok None)
            × (self.new ≡ self.old)) }
        // and a fault is kept.
        ensures kept { IfErr result (λ fault. self.new.fault ≡ Some fault) }
        ensures goes_on { OnOk result (self.new.fault ≡ None) }
        ensures few { OnOk result (self.new.at.lines ≤ 2 ^ 48) }
    {
        if let Some(fault) = self.fault {
            return Err(fault);
        }
        let told = self.buffer.next_change(&mut self.reader);
        if let Err(fault) = &told {
            self.fault = Some(*fault);
        }
        told
    }

    /// The reader. Bytes that it gave and that no line has yet are lost; there are none where it failed or never ended.
    pub fn into_reader(self) -> R
        // What is left are the bytes that are left in the reader, after those that are lost,
        ensures rest { (lost : List ℕ) × (self.at.left ≡ prepend_known lost (R.remaining result)) }
        // and where the reader was at fault, none are.
        ensures none_lost { IfSome self.fault (λ load. (load.fault.cause ≡ OplCause.ReaderFailed)
            ⊎ (load.fault.cause ≡ OplCause.Endless) → R.remaining result ≡ self.at.left) }
    {
        self.reader
    }
}
