//! The command `pack FILE PACK` over a snapshot in memory.

ghost use Rattle.std.specs.Prelude.{◌≡◌, ◌≢◌, ◌⊎◌, ℕ, IfErr, IfSome, List, OnErr, OnOk, true};
ghost use Rattle.std.specs.Io.KnownBytes.{Appends, Keeps};
ghost use Rattle.osm_model.specs.Elements.{Element};
ghost use Rattle.opl_codec.specs.Files.{HoldsSet};
ghost use Rattle.osm_keys.specs.Publications.{Publication};
ghost use Rattle.osm_index.specs.Snapshots.{HoldsPublication};
ghost use Rattle.pack_assembly.specs.Packing.{IsPackOf};
ghost use Rattle.osm_packs.specs.Packing.{Explains, HasPacked, IsOutsideOrLong};
ghost use Rattle.osm_packs.specs.internal.Packing.{IsPackFault};

use node_pack::{WriteFault, write_pack};
use osm_commands::{
    CommandFault, FlushingWriter, ReplacingWriter, read_snapshot, root_line, write_whole,
};
use osm_index::{BuildProgress, Edition, Snapshot};
use std::alloc::Global;
use std::io::{Read, Write};
use tree_node::Recorder;

/// Reads the input as the OPL text of a set of objects, writes the pack of the set in this edition, puts it in its place, and
/// then writes the set's root to the output as `publish` does. It takes the memory of `publish`, and some hundred bytes for each
/// node. The program packs in bounded memory, by [`pack_within`](crate::pack_within), which writes the same.
///
/// # Errors
///
/// As of `publish`, and `TooLarge` where a node or the pack is too long for the form of packs. Nothing is written then, but
/// where a writer failed a beginning of its text; the root isn't told before the pack is in its place. The input is left where it
/// stood.
///
/// Clauses that speak of the input's bytes do so where the reader tells them.
pub fn pack<R: Read, B: BuildProgress, P: ReplacingWriter, W: FlushingWriter>(
    alloc: Global,
    input: &mut R,
    edition: Edition,
    progress: &mut B,
    pack: &mut P,
    output: &mut W,
) -> Result<(), CommandFault>
    // The writers have gained exactly the pack of a publication of the set that the file holds, and the line of its root.
    ensures packed { OnOk result (IfSome (R.remaining input.old) (λ file. HasPacked file edition
        (record { before = P.contents pack.old; after = P.contents pack.new })
        (record { before = W.contents output.old; after = W.contents output.new }))) }
    // The pack is in its place then, and nothing is held back.
    ensures placed { OnOk result ((P.is_in_place pack.new ≡ true) × (P.is_flushed pack.new ≡ true)
        × (W.is_flushed output.new ≡ true)) }
    // What holds a set is packed, unless memory or a device fails, its trees can't be made, or they are too long for a pack.
    ensures only { IfSome (R.remaining input.old) (λ file. (set : List Element) → HoldsSet file set
        → IfErr result (IsOutsideOrLong file set edition)) }
    // Which fault it is.
    ensures refused { IfSome (R.remaining input.old) (λ file.
        IfErr result (Explains file (R.remaining input.new) edition)) }
    // Nothing is written but where a device fails,
    ensures nothing { IfErr result (λ fault. fault ≢ CommandFault.Device
        → Keeps (P.contents pack.old) (P.contents pack.new)
        × Keeps (W.contents output.old) (W.contents output.new)) }
    // and the root isn't told before the pack is in its place.
    ensures in_order { OnErr result ((P.is_in_place pack.new ≡ true)
        ⊎ Keeps (W.contents output.old) (W.contents output.new)) }
{
    let snapshot = read_snapshot(alloc, input, edition, progress)?;
    let line = root_line(alloc, snapshot.root())?;
    write_nodes(alloc, &snapshot, pack)?;
    pack.flush_all()?;
    pack.put_in_place()?;
    write_whole(output, line.as_bytes())
}

/// Writes the pack of a snapshot's publication.
fn write_nodes<P: Write>(
    alloc: Global,
    snapshot: &Snapshot,
    pack: &mut P,
) -> Result<(), CommandFault>
    ensures packed { (p : Publication) → HoldsPublication snapshot.now p → OnOk result
        ((bytes : List ℕ) × IsPackOf p bytes
        × Appends (P.contents pack.old) (P.contents pack.new) bytes) }
    ensures refused { (p : Publication) → HoldsPublication snapshot.now p
        → IfErr result (IsPackFault p) }
    ensures nothing { IfErr result (λ fault. fault ≢ CommandFault.Device
        → Keeps (P.contents pack.old) (P.contents pack.new)) }
{
    let mut shelf = Recorder::new(alloc, snapshot.stock());
    match write_pack(alloc, &mut shelf, snapshot.root(), pack) {
        Ok(_) => Ok(()),
        Err(WriteFault::TooLong) => Err(CommandFault::TooLarge),
        Err(WriteFault::Memory) => Err(CommandFault::Memory),
        Err(WriteFault::NotWritten) => Err(CommandFault::Device),
        Err(WriteFault::Missing) => unreachable!("a snapshot holds its nodes"),
        Err(WriteFault::Malformed) => unreachable!("each of them is what refers to it says"),
    }
}
