//! Sets of objects and lists of changes, read from files.

ghost use Rattle.std.specs.Prelude.{[], ◌∷◌, ◌++◌, ◌≡◌, ◌⊎◌, ◌≤◌, ◌^◌, ℕ, IfErr, IfSome, IfOk, List, MatchOption, MatchResult, OnOk, Option, length};
ghost use Rattle.osm_model.specs.Elements.{Element, reference, references};
ghost use Rattle.opl_codec.specs.Files.{HoldsChangeFile, HoldsChanges, HoldsSet, IsReaderOrMemory, PutSet, StopsChanges, StopsFile};
ghost use Rattle.opl_codec.specs.LineReads.{no_memory};
ghost use Rattle.opl_codec.specs.declared.change.Change.{Change as ChangeWord};
ghost use Rattle.opl_codec.specs.declared.fault.LoadFault.{LoadFault};
ghost use Rattle.opl_codec.specs.LineReaders.{place};
ghost use Rattle.opl_codec.specs.internal.Buffering.{GoesOn, IsKept};
ghost use Rattle.opl_codec.specs.internal.Loading.{IsUnput, Knows, Puts, ReadsAll, ReadsTo, SpellsFile, start};

use crate::cause::OplCause;
use crate::change::Change;
use crate::change_file::ChangeFile;
use crate::fault::LoadFault;
use crate::line_buffer::{LineBuffer, Step};
use crate::references::References;
use osm_model::{Object, ObjectSet};
use std::alloc::{AllocError, Global};
use std::io::Read;

/// The set of the objects that a file holds, one a line (see `read_line`). Lines end with LF, which
/// the last may lack; skipped ones are passed over; objects come in any order, none twice. The reader
/// ends where it gives no bytes.
///
/// It reads pieces of at most 65,536 bytes. Where the objects come by rising reference, as in
/// extracts, it takes time linear in the bytes, and keeps nothing but the objects, the beginning of one
/// line and the last comment, at most 2^25 bytes each. From the first that doesn't rise on, it also keeps
/// their references, and takes n log n.
///
/// Refused by the first line with a fault, lines from 1: the line's own (see `read_line`), where
/// `LineTooLong` is reported as soon as too many bytes of a line were read, whether it ends or not;
/// `Deleted` at byte 0 where it deletes an object; or `OutsideModel` at byte 0 where an earlier line
/// has the same object. `ReaderFailed` and `Endless` (2^32 reads without an end) are reported at byte
/// 0 of the line that was being read. `Memory`, at line 0 and byte 0, may come in place of any answer.
/// Nothing is read after the piece in which the refusal is found.
///
/// Source: Osmium's OPL manual; the limits, the causes and their places are this project's.
pub fn read_set<R: Read>(alloc: Global, reader: &mut R) -> Result<ObjectSet, LoadFault>
    // What is read is what the file holds.
    ensures read { IfSome (R.remaining reader.old) (λ file. IfOk result (HoldsSet file)) }
    // Whatever the reader declares of its bytes, what is read is a set that a file holds.
    ensures held { IfOk result (λ set. (file : List ℕ) × HoldsSet file set) }
    // What the file holds is read, unless the reader failed, never ended, or memory ran out.
    ensures only { IfSome (R.remaining reader.old) (λ file. (objects : List Element)
        → HoldsSet file objects
        → MatchResult result (λ set. set ≡ objects) (λ fault. IsReaderOrMemory fault.fault.cause)) }
    // A file that is refused as endless has 2^32 bytes at least.
    ensures endless { IfSome (R.remaining reader.old) (λ file. IfErr result (λ fault.
        fault.fault.cause ≡ OplCause.Endless → 2 ^ 32 ≤ length file)) }
    // A refusal names the line that can't be read, and the byte in it.
    ensures refused { IfSome (R.remaining reader.old) (λ file. IfErr result
        (λ load. (load ≡ no_memory) ⊎ StopsFile file (R.remaining reader.new) load)) }
    // Out of memory is told of no line.
    ensures memory { IfErr result (λ load. load.fault.cause ≡ OplCause.Memory → load ≡ no_memory) }
{
    let objects = read_objects(alloc, reader)?;
    match ObjectSet::from_objects(objects) {
        Ok(set) => Ok(set),
        Err(_) => unreachable!("no object comes twice"),
    }
}

/// The objects that the lines of a reader put, in their order.
fn read_objects<R: Read>(alloc: Global, reader: &mut R) -> Result<Vec<Object>, LoadFault>
    ensures read { IfOk result (λ objects. ReadsAll PutSet (R.remaining reader.old) objects.items) }
    ensures refused { IfSome (R.remaining reader.old) (λ file. IfErr result
        (λ load. (load ≡ no_memory) ⊎ StopsFile file (R.remaining reader.new) load)) }
    ensures memory { IfErr result (λ load. load.fault.cause ≡ OplCause.Memory → load ≡ no_memory) }
{
    let mut buffer = LineBuffer::new(alloc);
    let mut references = References::new(alloc);
    let mut objects = Vec::new(alloc);
    put_all(reader, &mut buffer, &mut references, &mut objects)?;
    Ok(objects)
}

/// Puts what the lines of a reader say after these objects, whose references are known.
fn put_all<R: Read>(
    reader: &mut R,
    buffer: &mut LineBuffer,
    known: &mut References,
    objects: &mut Vec<Object>,
) -> Result<(), LoadFault>
    requires goes_on { GoesOn (R.remaining reader.old) buffer.old }
    requires come { ReadsTo PutSet (start (R.remaining reader.old)) (place (R.remaining reader.old) buffer.old) objects.old.items }
    requires known { Knows known.old (references objects.old.items) }
    ensures read { OnOk result (ReadsAll PutSet (R.remaining reader.old) objects.new.items) }
    ensures refused { IfSome (R.remaining reader.old) (λ file. IfErr result
        (λ load. (load ≡ no_memory) ⊎ StopsFile file (R.remaining reader.new) load)) }
    ensures memory { IfErr result (λ load. load.fault.cause ≡ OplCause.Memory → load ≡ no_memory) }
{
    while let Some((line, change)) = buffer.next_change(reader)? {
        put(objects, known, line, change)?;
    }
    Ok(())
}

/// Puts the change of this line after these objects, whose references are known.
fn put(
    objects: &mut Vec<Object>,
    known: &mut References,
    line: u64,
    change: Change,
) -> Result<(), LoadFault>
    requires { Knows known.old (references objects.old.items) }
    ensures put { OnOk result (Puts objects.old.items objects.new.items change) }
    ensures known { OnOk result (Knows known.new (references objects.new.items)) }
    ensures refused { IfErr result (λ load. (load ≡ no_memory)
        ⊎ ((load.line ≡ line) × IsUnput objects.old.items change load.fault)) }
{
    match change {
        Change::Put(object) => put_object(objects, known, line, object),
        Change::Delete(_) => Err(LoadFault::at(line, OplCause::Deleted)),
    }
}

/// Puts the object of this line after these, whose references are known.
fn put_object(
    objects: &mut Vec<Object>,
    known: &mut References,
    line: u64,
    object: Object,
) -> Result<(), LoadFault>
    requires { Knows known.old (references objects.old.items) }
    ensures put { OnOk result (objects.new.items ≡ objects.old.items ++ object ∷ []) }
    ensures known { OnOk result (Knows known.new (references objects.new.items)) }
    ensures refused { IfErr result (λ load. (load ≡ no_memory)
        ⊎ ((load.line ≡ line) × IsUnput objects.old.items (Change.Put object) load.fault)) }
{
    add_reference(known, objects, line, &object)?;
    append_object(objects, object)?;
    Ok(())
}

/// Adds the reference of the object of this line, which comes after these.
fn add_reference(
    known: &mut References,
    objects: &[Object],
    line: u64,
    object: &Object,
) -> Result<(), LoadFault>
    requires { Knows known.old (references objects.now) }
    ensures known { OnOk result (Knows known.new (references objects.now
        ++ reference object.now ∷ [])) }
    ensures refused { IfErr result (λ load. (load ≡ no_memory)
        ⊎ ((load.line ≡ line) × IsUnput objects.now (Change.Put object.now) load.fault)) }
{
    if !known.add(objects, object.reference())? {
        return Err(LoadFault::at(line, OplCause::OutsideModel));
    }
    Ok(())
}

/// Puts an object after these.
fn append_object(objects: &mut Vec<Object>, object: Object) -> Result<(), AllocError>
    ensures { OnOk result (objects.new.items ≡ objects.old.items ++ object ∷ []) }
{
    objects.push(object)?;
    Ok(())
}

/// The changes that a file holds, one a line, in order (see `read_line`). Lines end with LF, which the
/// last may lack; skipped ones are passed over. The reader ends where it gives no bytes.
///
/// It reads pieces of at most 65,536 bytes, in time linear in the bytes, and keeps nothing but the
/// changes, the beginning of one line and the last comment, at most 2^25 bytes each.
///
/// Refused as `read_set` refuses, by the first line with a fault; but a line may delete an object, and
/// several may change the same one. `Memory`, at line 0 and byte 0, may come in place of any answer.
///
/// Source: Osmium's OPL manual; the limits, the causes and their places are this project's.
pub fn read_changes<R: Read>(alloc: Global, reader: &mut R) -> Result<Vec<Change>, LoadFault>
    // What is read is what the file holds.
    ensures read { IfSome (R.remaining reader.old) (λ file. IfOk result
        (λ changes. HoldsChanges file changes.items)) }
    // Whatever the reader declares of its bytes, what is read are changes that a file holds.
    ensures held { IfOk result (λ changes. (file : List ℕ) × HoldsChanges file changes.items) }
    // What the file holds is read, unless the reader failed, never ended, or memory ran out.
    ensures only { IfSome (R.remaining reader.old) (λ file. (changes : List ChangeWord)
        → HoldsChanges file changes
        → MatchResult result (λ read. read.items ≡ changes)
        (λ fault. IsReaderOrMemory fault.fault.cause)) }
    // A file that is refused as endless has 2^32 bytes at least.
    ensures endless { IfSome (R.remaining reader.old) (λ file. IfErr result (λ fault.
        fault.fault.cause ≡ OplCause.Endless → 2 ^ 32 ≤ length file)) }
    // A refusal names the line that can't be read, and the byte in it.
    ensures refused { IfSome (R.remaining reader.old) (λ file. IfErr result
        (λ load. (load ≡ no_memory) ⊎ StopsChanges file (R.remaining reader.new) load)) }
    // Out of memory is told of no line.
    ensures memory { IfErr result (λ load. load.fault.cause ≡ OplCause.Memory → load ≡ no_memory) }
{
    let file = read_change_file(alloc, reader)?;
    Ok(file.changes)
}

/// The changes that a file holds, as `read_changes` reads them, and the comment that it ends with: its last
/// line that isn't empty, where that begins with `#`. Refused as `read_changes` refuses.
///
/// Source: Osmium's OPL manual, by which comments are skipped; that one at the end is told is this project's.
pub fn read_change_file<R: Read>(alloc: Global, reader: &mut R) -> Result<ChangeFile, LoadFault>
    // What is read is what the file holds, and the comment at its end.
    ensures read { IfSome (R.remaining reader.old) (λ file.
        IfOk result (HoldsChangeFile file)) }
    // Whatever the reader declares of its bytes, what is read is what a file holds.
    ensures held { IfOk result (λ found. (file : List ℕ) × HoldsChangeFile file found) }
    // What the file holds is read, unless the reader failed, never ended, or memory ran out.
    ensures only { IfSome (R.remaining reader.old) (λ file. (changes : List ChangeWord)
        → HoldsChanges file changes
        → MatchResult result (λ found. found.changes.items ≡ changes)
        (λ fault. IsReaderOrMemory fault.fault.cause)) }
    // A file that is refused as endless has 2^32 bytes at least.
    ensures endless { IfSome (R.remaining reader.old) (λ file. IfErr result (λ fault.
        fault.fault.cause ≡ OplCause.Endless → 2 ^ 32 ≤ length file)) }
    // A refusal names the line that can't be read, and the byte in it.
    ensures refused { IfSome (R.remaining reader.old) (λ file. IfErr result (λ load.
        (load ≡ no_memory) ⊎ StopsChanges file (R.remaining reader.new) load)) }
    // Out of memory is told of no line.
    ensures memory { IfErr result (λ load. load.fault.cause ≡ OplCause.Memory → load ≡ no_memory) }
{
    let file = take_file(alloc, reader)?;
    Ok(file)
}

/// What the lines of a reader say, in their order, and the comment at their end.
fn take_file<R: Read>(alloc: Global, reader: &mut R) -> Result<ChangeFile, LoadFault>
    ensures read { IfOk result (λ found. (comment : List ℕ)
        × ReadsAll SpellsFile (R.remaining reader.old) (found.changes.items, comment)
        × IsKept comment found.end_comment) }
    ensures refused { IfSome (R.remaining reader.old) (λ file. IfErr result (λ load.
        (load ≡ no_memory) ⊎ StopsChanges file (R.remaining reader.new) load)) }
    ensures memory { IfErr result (λ load. load.fault.cause ≡ OplCause.Memory → load ≡ no_memory) }
{
    let mut buffer = LineBuffer::new(alloc);
    let mut changes = Vec::new(alloc);
    while let Step::Line(found) = buffer.take_line(reader)? {
        append(&mut changes, found)?;
    }
    let end_comment = buffer.into_comment();
    Ok(ChangeFile {
        changes,
        end_comment,
    })
}

/// Puts the change that a line says, if it says one, after these.
fn append(changes: &mut Vec<Change>, found: Option<Change>) -> Result<(), AllocError>
    ensures { OnOk result (MatchOption found (changes.new.items ≡ changes.old.items)
        (λ change. changes.new.items ≡ changes.old.items ++ change ∷ [])) }
{
    if let Some(change) = found {
        changes.push(change)?;
    }
    Ok(())
}

/// A law: a file holds one list of changes at most (`HoldsChanges` of `specs/Files.antt`).
pub fn one_change_list()
    ensures { (file : List ℕ) (a b : List ChangeWord) → HoldsChanges file a → HoldsChanges file b
        → a ≡ b }
{}

/// A law: a file holds one set at most (`HoldsSet` of `specs/Files.antt`).
pub fn one_set()
    ensures { (file : List ℕ) (a b : List Element) → HoldsSet file a → HoldsSet file b → a ≡ b }
{}

/// A law: a file that has a line at which it stops (`StopsFile` of `specs/Files.antt`) holds no set,
/// unless it is its reader that failed or never ended.
pub fn stopped_holds_none()
    ensures { (file : List ℕ) (left : Option (List ℕ)) (load : LoadFault) (objects : List Element)
        → StopsFile file left load → (¬ (IsReaderOrMemory load.fault.cause)) → HoldsSet file objects
        → ⊥ }
{}
