//! The bytes of a reader, cut into lines.

ghost use Rattle.std.specs.Prelude.{◌≡◌, ◌≢◌, ◌+◌, ◌<◌, ◌≤◌, ◌++◌, ◌∷◌, ◌⊎◌, [], List, ℕ, None, length, drop, take, MatchOption, IfOk, IfErr, OnOk, Ok, ◌^◌, Option, false, true};
ghost use Rattle.std.specs.Io.KnownBytes.{Consumes, IsAtEnd, Keeps};
ghost use Rattle.byte_io.specs.Pieces.{pieces};
ghost use Rattle.opl_codec.specs.LineReads.{IsNext, IsRefused, IsTooLong, IsUnread, no_memory};
ghost use Rattle.opl_codec.specs.LineReaders.{place, unread};
ghost use Rattle.opl_codec.specs.internal.Buffering.{GoesOn, IsFaultOf, IsKept, IsSound, IsStep, SaysOrSkipped, comment_after};
ghost use Rattle.opl_codec.specs.internal.Loading.{IsTold};
ghost use Rattle.opl_codec.specs.declared.line.TheConstants.{LONGEST_LINE};

use crate::cause::OplCause;
use crate::change::Change;
use crate::cut_text::is_at;
use crate::fault::{LoadFault, OplFault};
use crate::line::{LONGEST_LINE, read_line};
use byte_io::{PieceFault, PieceReader, split_once};
use std::alloc::{AllocError, Global};
use std::io::Read;

/// What comes next of a reader.
#[derive(Drop)]
pub(crate) enum Step {
    /// A line, and what it says: nothing where it is skipped.
    Line(Option<Change>),
    /// The end.
    End,
}

/// What was read of a reader and not yet told as lines.
#[derive(Drop)]
pub(crate) struct LineBuffer {
    alloc: Global,
    pub(crate) pieces: PieceReader,
    /// Where in the last piece the bytes begin that no line has yet.
    pub(crate) from: usize,
    /// The beginning of a line that crosses pieces.
    pub(crate) pending: Vec<u8>,
    /// The last line that was read and isn't empty, where it is a comment; else nothing.
    pub(crate) comment: Vec<u8>,
    /// How many bytes the reader gave.
    pub(crate) total: u64,
    /// How many lines were read.
    pub(crate) lines: u64,
    /// Whether the reader has ended.
    pub(crate) is_ended: bool,
}

impl LineBuffer {
    /// Nothing was read yet. It takes no memory.
    pub(crate) fn new(alloc: Global) -> LineBuffer
        ensures sound { (known : Option (List ℕ)) → GoesOn known result }
        ensures nothing { (result.lines ≡ 0) × (result.total ≡ 0) × (result.is_ended ≡ false) }
        ensures unread { unread result ≡ [] }
        ensures uncommented { result.comment.items ≡ [] }
    {
        LineBuffer {
            alloc,
            pieces: PieceReader::new(),
            from: 0,
            pending: Vec::new(alloc),
            comment: Vec::new(alloc),
            total: 0,
            lines: 0,
            is_ended: false,
        }
    }

    /// Reads the next line of the reader. Give the same reader to each call.
    pub(crate) fn take_line<R: Read>(&mut self, reader: &mut R) -> Result<Step, LoadFault>
        requires { GoesOn (R.remaining reader.old) self.old }
        ensures goes_on { OnOk result (GoesOn (R.remaining reader.new) self.new) }
        ensures step { IsStep (place (R.remaining reader.old) self.old)
            (place (R.remaining reader.new) self.new)
            self.old.comment.items self.new.comment.items result }
        ensures told { IfErr result (IsTold self.new) }
        ensures ended { self.old.is_ended ≡ true → (result ≡ Ok Step.End) × (self.new ≡ self.old)
            × (reader.new ≡ reader.old) }
    {
        loop {
            if let Some(len) = self.line_len() {
                return self.take_ended(len);
            }
            if self.is_ended {
                return self.take_last();
            }
            self.keep_unread()?;
            self.read_piece(reader)?;
        }
    }

    /// What the next line says that says something, and its number from 1; `None` at the end. Give the
    /// same reader to each call.
    pub(crate) fn next_change<R: Read>(
        &mut self,
        reader: &mut R,
    ) -> Result<Option<(u64, Change)>, LoadFault>
        requires { GoesOn (R.remaining reader.old) self.old }
        ensures next { IsNext (place (R.remaining reader.old) self.old) (place (R.remaining reader.new) self.new) result }
        ensures over { self.old.is_ended ≡ true → (result ≡ Ok None) × (self.new ≡ self.old)
            × (reader.new ≡ reader.old) }
        ensures goes_on { OnOk result (GoesOn (R.remaining reader.new) self.new) }
        ensures few { OnOk result (self.new.lines ≤ 2 ^ 48) }
        ensures told { IfErr result (IsTold self.new) }
    {
        loop {
            match self.take_line(reader)? {
                Step::Line(None) => {}
                Step::Line(Some(change)) => return Ok(Some((self.lines, change))),
                Step::End => return Ok(None),
            }
        }
    }

    /// The last line that was read and isn't empty, where it is a comment.
    pub(crate) fn into_comment(self) -> Option<Vec<u8>>
        ensures { IsKept self.comment.items result }
    {
        if self.comment.is_empty() {
            return None;
        }
        Some(self.comment)
    }

    fn unread(&self) -> &[u8]
        requires { self.now.from ≤ length self.now.pieces.last }
        ensures { result.now ≡ unread self.now }
    {
        &self.pieces.last()[self.from..]
    }

    /// The length of the next line as far as it is unread, where its LF is.
    fn line_len(&self) -> Option<usize>
        requires { self.now.from ≤ length self.now.pieces.last }
        ensures { MatchOption result (pieces 10 (unread self.now) ≡ unread self.now ∷ [])
            (λ len. (line : List ℕ) × (rest : List ℕ) × (unread self.now ≡ line ++ 10 ∷ rest)
            × (len ≡ length line) × (pieces 10 line ≡ line ∷ [])) }
    {
        match split_once(self.unread(), b'\n') {
            Some((line, _)) => Some(line.len()),
            None => None,
        }
    }

    /// Reads the line that ends after so many unread bytes.
    fn take_ended(&mut self, len: usize) -> Result<Step, LoadFault>
        requires sound { IsSound self.old }
        requires within { len < length (unread self.old) }
        ensures read { IfOk result (λ step. (found : Option Change) × (step ≡ Step.Line found)
            × SaysOrSkipped (self.old.pending.items ++ take len (unread self.old)) found) }
        ensures sound { OnOk result (IsSound self.new × (self.new.pending.items ≡ [])) }
        ensures refused { IfErr result (λ load. (load ≡ no_memory)
            ⊎ ((load.line ≡ self.old.lines + 1) × IsRefused (self.old.pending.items
            ++ take len (unread self.old)) load.fault)) }
        ensures told { IfErr result (IsTold self.new) }
        ensures counted { self.new.lines ≡ self.old.lines + 1 }
        ensures rest { unread self.new ≡ drop (len + 1) (unread self.old) }
        ensures comment { OnOk result (self.new.comment.items ≡ comment_after self.old.comment.items
            (self.old.pending.items ++ take len (unread self.old))) }
        ensures same { (self.new.total ≡ self.old.total) × (self.new.is_ended ≡ self.old.is_ended) }
    {
        let start = self.from;
        self.from = start + len + 1;
        self.lines += 1;
        let end = &self.pieces.last()[start..start + len];
        read_numbered(
            self.alloc,
            &mut self.comment,
            &mut self.pending,
            end,
            self.lines,
        )
    }

    /// Reads the last line, which lacks its LF.
    fn take_last(&mut self) -> Result<Step, LoadFault>
        requires { IsSound self.old }
        ensures read { IfOk result (λ step. ((step ≡ Step.End) × (self.old.pending.items ≡ [])
            × (self.new.lines ≡ self.old.lines))
            ⊎ ((found : Option Change) × (step ≡ Step.Line found)
            × SaysOrSkipped self.old.pending.items found × (self.new.lines ≡ self.old.lines + 1))) }
        ensures sound { OnOk result (IsSound self.new × (self.new.pending.items ≡ [])) }
        ensures refused { IfErr result (λ load. (load ≡ no_memory)
            ⊎ ((load.line ≡ self.old.lines + 1) × IsRefused self.old.pending.items load.fault)) }
        ensures told { IfErr result (IsTold self.new) }
        ensures same { (self.new.from ≡ self.old.from) × (self.new.pieces ≡ self.old.pieces)
            × (self.new.total ≡ self.old.total) × (self.new.is_ended ≡ self.old.is_ended) }
        ensures comment { OnOk result (self.new.comment.items ≡ comment_after self.old.comment.items
            self.old.pending.items) }
        ensures empty { self.old.pending.items ≡ [] → (result ≡ Ok Step.End)
            × (self.new ≡ self.old) }
    {
        if self.pending.is_empty() {
            return Ok(Step::End);
        }
        self.lines += 1;
        read_numbered(
            self.alloc,
            &mut self.comment,
            &mut self.pending,
            &[],
            self.lines,
        )
    }

    /// Keeps the unread bytes: they are the beginning of a line, or more of it.
    fn keep_unread(&mut self) -> Result<(), LoadFault>
        requires { IsSound self.old }
        ensures kept { OnOk result (self.new.pending.items ≡ self.old.pending.items
            ++ unread self.old) }
        ensures sound { OnOk result (IsSound self.new) }
        ensures refused { IfErr result (λ load. (load ≡ no_memory)
            ⊎ ((load.line ≡ self.old.lines + 1) × IsTooLong (self.old.pending.items
            ++ unread self.old) load.fault)) }
        ensures told { IfErr result (IsTold self.new) }
        ensures none { unread self.new ≡ [] }
        ensures same { (self.new.pieces ≡ self.old.pieces) × (self.new.total ≡ self.old.total)
            × (self.new.lines ≡ self.old.lines) × (self.new.is_ended ≡ self.old.is_ended)
            × (self.new.comment ≡ self.old.comment) }
    {
        let start = self.from;
        let piece = self.pieces.last();
        self.from = piece.len();
        let unread = &piece[start..];
        if self.pending.len() + unread.len() > LONGEST_LINE {
            let fault = LoadFault::at(self.lines + 1, OplCause::LineTooLong);
            return Err(fault.at_byte(LONGEST_LINE));
        }
        self.pending.extend_from_slice(unread)?;
        Ok(())
    }

    /// Reads the next piece, all of which is unread.
    fn read_piece<R: Read>(&mut self, reader: &mut R) -> Result<(), LoadFault>
        requires sound { IsSound self.old }
        requires goes_on { self.old.is_ended ≡ false }
        requires none { unread self.old ≡ [] }
        ensures sound { OnOk result (IsSound self.new) }
        ensures read { OnOk result (Consumes (R.remaining reader.old) (R.remaining reader.new) (unread self.new)) }
        ensures counted { OnOk result ((self.new.total ≡ self.old.total + length (unread self.new))
            × (self.new.pieces.reads ≡ self.old.pieces.reads + 1)) }
        ensures end { OnOk result (self.new.is_ended ≡ true → IsAtEnd (R.remaining reader.new)) }
        ensures kept { IfErr result (λ _. Keeps (R.remaining reader.old) (R.remaining reader.new)
            × (unread self.new ≡ []) × (self.new.total ≡ self.old.total)) }
        ensures refused { IfErr result (λ load. (load.line ≡ self.old.lines + 1)
            × IsUnread self.old.total load.fault) }
        ensures told { IfErr result (IsTold self.new) }
        ensures same { (self.new.pending.items ≡ self.old.pending.items)
            × (self.new.lines ≡ self.old.lines) × (self.new.comment ≡ self.old.comment) }
    {
        self.from = 0;
        let line = self.lines + 1;
        match self.pieces.read_next(reader) {
            Ok(more) => {
                self.total += self.pieces.last().len() as u64;
                self.is_ended = !more;
                Ok(())
            }
            Err(PieceFault::Failed) => Err(LoadFault::at(line, OplCause::ReaderFailed)),
            Err(PieceFault::Endless) => Err(LoadFault::at(line, OplCause::Endless)),
        }
    }
}

/// Reads the line of this number, as `read_joined` does.
fn read_numbered(
    alloc: Global,
    comment: &mut Vec<u8>,
    pending: &mut Vec<u8>,
    end: &[u8],
    line: u64,
) -> Result<Step, LoadFault>
    ensures read { IfOk result (λ step. (found : Option Change) × (step ≡ Step.Line found)
        × SaysOrSkipped (pending.old.items ++ end.now) found) }
    ensures refused { IfErr result (λ load. (load ≡ no_memory)
        ⊎ ((load.line ≡ line) × IsRefused (pending.old.items ++ end.now) load.fault)) }
    ensures told { IfErr result (λ load. (buffer : LineBuffer) → IsTold buffer load) }
    ensures comment { OnOk result (comment.new.items ≡ comment_after comment.old.items
        (pending.old.items ++ end.now)) }
    ensures empty { OnOk result (pending.new.items ≡ []) }
{
    match read_joined(alloc, comment, pending, end) {
        Ok(found) => Ok(Step::Line(found)),
        Err(fault) => Err(refusal(line, fault)),
    }
}

/// Reads the line that ends with this; its beginning was kept, and isn't any longer.
fn read_joined(
    alloc: Global,
    comment: &mut Vec<u8>,
    pending: &mut Vec<u8>,
    end: &[u8],
) -> Result<Option<Change>, OplFault>
    ensures read { IfOk result (λ found. SaysOrSkipped (pending.old.items ++ end.now) found) }
    ensures refused { IfErr result (λ fault. IsFaultOf (pending.old.items ++ end.now) fault) }
    ensures comment { OnOk result (comment.new.items ≡ comment_after comment.old.items
        (pending.old.items ++ end.now)) }
    ensures empty { OnOk result (pending.new.items ≡ []) }
{
    if pending.is_empty() {
        return read_whole(alloc, comment, end);
    }
    if let Err(AllocError) = pending.extend_from_slice(end) {
        return Err(LoadFault::memory().fault);
    }
    let found = read_whole(alloc, comment, pending);
    pending.clear();
    found
}

/// Reads a line, and keeps it as the comment that comes last, where it is one.
fn read_whole(alloc: Global, comment: &mut Vec<u8>, line: &[u8]) -> Result<Option<Change>, OplFault>
    ensures read { IfOk result (λ found. SaysOrSkipped line.now found) }
    ensures refused { IfErr result (λ fault. IsFaultOf line.now fault) }
    ensures comment { OnOk result (comment.new.items ≡ comment_after comment.old.items line.now) }
{
    if let Err(AllocError) = keep_comment(comment, line) {
        return Err(LoadFault::memory().fault);
    }
    read_line(alloc, line)
}

/// Keeps a line in place of what was kept, where it is a comment; else nothing, but an empty line changes nothing.
fn keep_comment(comment: &mut Vec<u8>, line: &[u8]) -> Result<(), AllocError>
    ensures { OnOk result (comment.new.items ≡ comment_after comment.old.items line.now) }
{
    if line.is_empty() {
        return Ok(());
    }
    comment.clear();
    if !is_at(line, 0, b'#') {
        return Ok(());
    }
    comment.extend_from_slice(line)?;
    Ok(())
}

/// The refusal of this line; out of memory is told of none.
fn refusal(line: u64, fault: OplFault) -> LoadFault
    ensures { (result ≡ no_memory) ⊎ ((result ≡ record { line = line; fault = fault })
        × (fault.cause ≢ OplCause.Memory)) }
{
    match fault.cause {
        OplCause::Memory => LoadFault::memory(),
        _ => LoadFault { line, fault },
    }
}
