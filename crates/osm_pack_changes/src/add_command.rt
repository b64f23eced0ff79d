//! The command `pack --add CHANGEFILE PACK`.

ghost use Rattle.std.specs.Prelude.{◌≡◌, ◌≢◌, ◌↔◌, ◌⊎◌, ◌<◌, ℕ, IfErr, IfOk, IsTrue, List, OnOk, length, true};
ghost use Rattle.std.specs.Io.KnownBytes.{Appends, Keeps};
ghost use Rattle.hex.specs.Hex.{encode_lower};
ghost use Rattle.osm_keys.specs.Publications.{Publication};
ghost use Rattle.pack_files.specs.Joined.{joined};
ghost use Rattle.pack_head.specs.Names.{IsHeadName};
ghost use Rattle.pack_update.specs.Adding.{HasFurther, HasSecondPreimage, IsAddedOf, IsRootOf};
ghost use Rattle.pack_update.specs.Files.{AreFilesOf};
ghost use Rattle.osm_commands.specs.TreeRoots.{publication_line};
ghost use Rattle.osm_pack_changes.specs.Adding.{HasAddedFile, IsNextOf};
ghost use Rattle.osm_pack_changes.specs.Heads.{manifest_place as place_in};
ghost use Rattle.osm_pack_changes.specs.Faults.{Explains, IsBeforeWriting};
ghost use Rattle.osm_pack_changes.specs.internal.Reading.{IsAsCommented, IsNextBeside, RefusesRead};
ghost use Rattle.osm_serving.specs.internal.ReadChanges.{comment_of};

use crate::manifest::manifest_place;
use crate::next_head::next_head_text;
use crate::not_added::NotAdded;
use node_pack::ReadAt;
use opl_codec::{ChangeFile, read_change_file};
use osm_commands::{FlushingWriter, ReplacingWriter, root_line, write_whole};
use pack_head::{FILES_LIMIT, Head, is_head_name};
use pack_update::{Added, Readers, add_changes};
use std::alloc::Global;
use std::io::{Read, Write};
use tree_node::Digest;

/// Reads the changes of a file, makes them of the set whose nodes stand in the files that a head names, and writes the nodes that
/// are new to one more file. Once that is whole and in its place, the next head is written, which names it too, under this name;
/// and once the head is in its place, the new root is printed as `publish` prints it. So whenever it is stopped, the head that is
/// there names files that are there. The head's sequence number isn't looked at.
///
/// Where the change file's last line that isn't empty is a comment that begins with `# root `, the changes are added only if what
/// follows is, byte for byte, the 64 digits in lower case of the root that they give.
///
/// # Errors
///
/// `Opl` where the file holds no changes, or was read 2^32 times without an end. `ManyFiles` where the head names 65,535 files
/// already, and `Name` where it can't have the new file's name. `Files` as [`add_changes`] refuses: the changes (by I5, I3, I2 or
/// I4), the files, or the new file. `OtherRoot` (I6) where the change file announces another root than its changes give. `Memory`
/// where an allocation was refused, `Device` where a read failed, or a write failed or took nothing. Nothing is put in its place
/// then, but where a device failed what was written before.
///
/// Clauses that speak of the bytes of readers and files do so where they tell them.
pub fn add_to_pack<
    C: Read,
    F: ReadAt + Drop,
    P: ReplacingWriter,
    H: ReplacingWriter,
    W: FlushingWriter,
>(
    alloc: Global,
    change_file: &mut C,
    head: &Head<'_>,
    files: Readers<F>,
    name: &[u8],
    further: &mut P,
    new_head: &mut H,
    output: &mut W,
) -> Result<(), NotAdded>
    // Under the root of a publication, whatever the files hold: the root that is told is that of the next one, by the changes that
    // the file holds, unless one of its nodes and another byte string have one digest.
    ensures told { (p : Publication) → IsRootOf p head.now.root.0
        → OnOk result ((q : Publication) × IsNextOf (C.remaining change_file.old) p q
        × Appends (W.contents output.old) (W.contents output.new) (publication_line q))
        ⊎ HasSecondPreimage p }
    // Where the files have the nodes of that publication, the next head and the files that it names are those of the next one.
    ensures added { (p : Publication) (contents : List (List ℕ)) → IsRootOf p head.now.root.0
        → F.reads files.places (joined contents) → AreFilesOf contents p (place_in head.now)
        → length contents ≡ length head.now.files.items
        → OnOk result ((q : Publication) × IsNextOf (C.remaining change_file.old) p q
        × HasAddedFile contents head.now name.now q
        (record { before = P.contents further.old; after = P.contents further.new })
        (record { before = H.contents new_head.old; after = H.contents new_head.new })
        × Appends (W.contents output.old) (W.contents output.new) (publication_line q))
        ⊎ HasSecondPreimage p }
    // All is in its place then, and nothing is held back.
    ensures placed { OnOk result
        ((P.is_flushed further.new ≡ true) × (P.is_in_place further.new ≡ true)
        × (H.is_flushed new_head.new ≡ true) × (H.is_in_place new_head.new ≡ true)
        × (W.is_flushed output.new ≡ true)) }
    // The head isn't written before the new file is in its place, and the root isn't told before the head is.
    ensures head_later { (new_head.new ≡ new_head.old)
        ⊎ ((P.is_flushed further.new ≡ true) × (P.is_in_place further.new ≡ true)) }
    ensures root_later { (output.new ≡ output.old)
        ⊎ ((H.is_flushed new_head.new ≡ true) × (H.is_in_place new_head.new ≡ true)) }
    // Under the root of a publication each refusal has its reason, with the same exception.
    ensures refused { (p : Publication) → IsRootOf p head.now.root.0
        → IfErr result (Explains p (C.remaining change_file.old) (C.remaining change_file.new)
        (length head.now.files.items) name.now)
        ⊎ HasSecondPreimage p }
    // Nothing is written where the changes aren't read, or are refused,
    ensures untouched { IfErr result (λ fault. IsBeforeWriting fault → further.new ≡ further.old) }
    // and nothing but the new file where no device fails.
    ensures nothing { IfErr result (λ fault. fault ≢ NotAdded.Device
        → (new_head.new ≡ new_head.old) × (output.new ≡ output.old)) }
{
    let read = read_change_file(alloc, change_file)?;
    let added = add_read(alloc, &read, head, files, name, further)?;
    let text = next_head_text(alloc, head, name, &added)?;
    let line = root_line(alloc, &added.header.root)?;
    write_in_turn(further, new_head, &text, output, line.as_bytes())
}

/// Writes the file with the nodes that the changes that were read add.
fn add_read<F: ReadAt + Drop, W: Write>(
    alloc: Global,
    read: &ChangeFile,
    head: &Head<'_>,
    files: Readers<F>,
    name: &[u8],
    further: &mut W,
) -> Result<Added, NotAdded>
    ensures safe { (p : Publication) → IsRootOf p head.now.root.0
        → IfOk result (λ added. (q : Publication) × IsNextBeside p read.now q × IsAddedOf q added)
        ⊎ HasSecondPreimage p }
    ensures whole { (p : Publication) (contents : List (List ℕ)) → IsRootOf p head.now.root.0
        → F.reads files.places (joined contents) → AreFilesOf contents p (place_in head.now)
        → length contents ≡ length head.now.files.items
        → IfOk result (λ added. (q : Publication) × IsNextBeside p read.now q × IsAddedOf q added
        × HasFurther contents q added (W.contents further.old) (W.contents further.new))
        ⊎ HasSecondPreimage p }
    ensures refused { (p : Publication) → IsRootOf p head.now.root.0
        → IfErr result (RefusesRead p read.now (length head.now.files.items) name.now)
        ⊎ HasSecondPreimage p }
    ensures untouched { IfErr result (λ fault. IsBeforeWriting fault → further.new ≡ further.old) }
    ensures named { IfOk result
        (λ _. (length head.now.files.items < FILES_LIMIT) × IsHeadName name.now) }
{
    let number = head.files.len();
    if number >= FILES_LIMIT {
        return Err(NotAdded::ManyFiles);
    }
    if !is_head_name(name) {
        return Err(NotAdded::Name);
    }
    let added = add_changes(
        alloc,
        files,
        number as u16,
        &head.root,
        manifest_place(head),
        &read.changes,
        further,
    )?;
    if !is_as_announced(read, &added.header.root) {
        return Err(NotAdded::OtherRoot);
    }
    Ok(added)
}

/// Whether a root is the one that the comment at the end of a change file announces, if it announces one.
fn is_as_announced(read: &ChangeFile, root: &Digest) -> bool
    ensures { IsTrue result ↔ IsAsCommented (comment_of read.now) root.now.0 }
{
    let Some(comment) = &read.end_comment else {
        return true;
    };
    match comment.strip_prefix(b"# root ") {
        Some(announced) => are_digits_of(announced, root),
        None => true,
    }
}

/// Whether the text is the 64 hexadecimal digits of the digest, in lower case. It takes no memory.
fn are_digits_of(text: &[u8], digest: &Digest) -> bool
    ensures { IsTrue result ↔ (text.now ≡ encode_lower digest.now.0) }
{
    let mut digits = [0; 64];
    match hex::encode_to_slice(digest.0, &mut digits) {
        Ok(()) => digits.as_slice() == text,
        Err(_) => unreachable!("64 digits find room"),
    }
}

/// Puts the new file in its place, writes the head and puts it in its place, and then writes the line of the root.
fn write_in_turn<P: ReplacingWriter, H: ReplacingWriter, W: FlushingWriter>(
    further: &mut P,
    new_head: &mut H,
    head: &[u8],
    output: &mut W,
    line: &[u8],
) -> Result<(), NotAdded>
    ensures kept { Keeps (P.contents further.old) (P.contents further.new) }
    ensures written { OnOk result
        (Appends (H.contents new_head.old) (H.contents new_head.new) head.now
        × Appends (W.contents output.old) (W.contents output.new) line.now) }
    ensures placed { OnOk result
        ((P.is_flushed further.new ≡ true) × (P.is_in_place further.new ≡ true)
        × (H.is_flushed new_head.new ≡ true) × (H.is_in_place new_head.new ≡ true)
        × (W.is_flushed output.new ≡ true)) }
    ensures head_later { (new_head.new ≡ new_head.old)
        ⊎ ((P.is_flushed further.new ≡ true) × (P.is_in_place further.new ≡ true)) }
    ensures root_later { (output.new ≡ output.old)
        ⊎ ((H.is_flushed new_head.new ≡ true) × (H.is_in_place new_head.new ≡ true)) }
    ensures device { IfErr result (λ fault. fault ≡ NotAdded.Device) }
{
    further.flush_all()?;
    further.put_in_place()?;
    write_whole(new_head, head)?;
    new_head.put_in_place()?;
    write_whole(output, line)?;
    Ok(())
}
