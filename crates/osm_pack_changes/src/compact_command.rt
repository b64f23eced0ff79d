//! The command `pack --compact HEAD PACK`.

ghost use Rattle.std.specs.Io.KnownBytes.{Appends, Keeps};
ghost use Rattle.std.specs.Prelude.{◌≡◌, ◌≢◌, ◌⊎◌, ℕ, IfErr, List, OnOk, true};
ghost use Rattle.osm_commands.specs.TreeRoots.{publication_line};
ghost use Rattle.osm_keys.specs.Publications.{Publication};
ghost use Rattle.osm_pack_changes.specs.Compacting.{IsOutside, IsReason};
ghost use Rattle.osm_pack_changes.specs.Heads.{manifest_place as place_in};
ghost use Rattle.pack_assembly.specs.Packing.{IsPacked};
ghost use Rattle.pack_files.specs.Joined.{joined};
ghost use Rattle.pack_update.specs.Adding.{HasSecondPreimage, IsRootOf};
ghost use Rattle.pack_update.specs.Files.{AreFilesOf};

use crate::manifest::manifest_place;
use crate::not_compacted::NotCompacted;
use external_sort::{RunStore, StoreMaker};
use node_pack::ReadAt;
use osm_commands::{FlushingWriter, ReplacingWriter, root_line, write_whole};
use pack_compact::compact_files;
use pack_head::Head;
use std::alloc::Global;
use std::io::Write;

/// Writes the set that a head's files hold as one pack, puts it in its place, and then prints its root as `publish` prints it. The
/// files, which are read as one, stay as they are. The pack is the one that `pack` writes of the set's OPL file. It is put together
/// in stores of these makers, and `memory`, in bytes, bounds what is held of them (see [`compact_files`]).
///
/// The head's sequence number and the lengths that it states of files aren't looked at.
///
/// # Errors
///
/// `Files` as [`compact_files`] refuses, but for memory and devices. `Memory` where an allocation was refused, `Device` where a read
/// failed, a store failed, or a write failed or took nothing. Nothing is put in its place then, except where the output fails.
///
/// Clauses that speak of the bytes of files do so where they tell them, and those that speak of what is written where stores give
/// back what they were told.
pub fn compact_pack<
    F: ReadAt,
    S: RunStore,
    M: StoreMaker<S> + Drop,
    P: ReplacingWriter,
    W: FlushingWriter,
>(
    alloc: Global,
    head: &Head<'_>,
    files: &mut F,
    maker: M,
    makers: [M; 4],
    memory: usize,
    pack: &mut P,
    output: &mut W,
) -> Result<(), NotCompacted>
    // Under the root of a publication, whatever the files hold: the writers have gained exactly its pack and the line of its root,
    // unless one of its nodes and another byte string have one digest.
    ensures told { S.is_true ≡ true → (p : Publication) → IsRootOf p head.now.root.0
        → OnOk result (IsPacked p (P.contents pack.old) (P.contents pack.new)
        × Appends (W.contents output.old) (W.contents output.new) (publication_line p))
        ⊎ HasSecondPreimage p }
    // The pack is in its place then, and nothing is held back.
    ensures placed { OnOk result ((P.is_flushed pack.new ≡ true) × (P.is_in_place pack.new ≡ true)
        × (W.is_flushed output.new ≡ true)) }
    // Where the files have the nodes of that publication, only memory, a device or its having no pack is a reason to refuse,
    ensures whole { S.is_true ≡ true → (p : Publication) (contents : List (List ℕ))
        → IsRootOf p head.now.root.0
        → F.reads files.old (joined contents) → AreFilesOf contents p (place_in head.now)
        → IfErr result (IsOutside p) ⊎ HasSecondPreimage p }
    // and in any case each refusal has its reason, with the same exception.
    ensures refused { S.is_true ≡ true → (p : Publication) → IsRootOf p head.now.root.0
        → IfErr result (IsReason p) ⊎ HasSecondPreimage p }
    // Nothing is written where no device fails,
    ensures nothing { IfErr result (λ fault. fault ≢ NotCompacted.Device
        → (pack.new ≡ pack.old) × (output.new ≡ output.old)) }
    // and the root isn't told before the pack is in its place.
    ensures root_later { (output.new ≡ output.old)
        ⊎ ((P.is_flushed pack.new ≡ true) × (P.is_in_place pack.new ≡ true)) }
{
    let line = root_line(alloc, &head.root)?;
    let place = manifest_place(head);
    compact_files(alloc, files, &head.root, place, maker, makers, memory, pack)?;
    place_and_tell(pack, output, line.as_bytes())
}

/// Puts a pack that was written in its place, and then writes the line of its root.
fn place_and_tell<P: ReplacingWriter, W: FlushingWriter>(
    pack: &mut P,
    output: &mut W,
    line: &[u8],
) -> Result<(), NotCompacted>
    ensures kept { Keeps (P.contents pack.old) (P.contents pack.new) }
    ensures told { OnOk result (Appends (W.contents output.old) (W.contents output.new) line.now) }
    ensures placed { OnOk result ((P.is_flushed pack.new ≡ true) × (P.is_in_place pack.new ≡ true)
        × (W.is_flushed output.new ≡ true)) }
    ensures root_later { (output.new ≡ output.old)
        ⊎ ((P.is_flushed pack.new ≡ true) × (P.is_in_place pack.new ≡ true)) }
    ensures device { IfErr result (λ fault. fault ≡ NotCompacted.Device) }
{
    pack.flush_all()?;
    pack.put_in_place()?;
    write_whole(output, line)?;
    Ok(())
}
