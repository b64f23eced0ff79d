//! The command `pack FILE PACK` in bounded memory.

ghost use Rattle.std.specs.Prelude.{◌≡◌, ◌≢◌, ◌⊎◌, IfErr, IfSome, List, OnErr, OnOk, Option, true, ℕ};
ghost use Rattle.std.specs.Io.KnownBytes.{Appends, Keeps};
ghost use Rattle.osm_model.specs.Elements.{Element};
ghost use Rattle.opl_codec.specs.Files.{HoldsSet};
ghost use Rattle.osm_commands.specs.RootLines.{digest_line};
ghost use Rattle.osm_packs.specs.Packing.{Explains, HasPacked, IsOutsideOrLong};
ghost use Rattle.osm_packs.specs.internal.Building.{fault_of_build};

use external_sort::{RunStore, StoreMaker};
use osm_commands::{CommandFault, FlushingWriter, ReplacingWriter, write_whole};
use osm_index::{BuildProgress, Edition};
use pack_build::{BuildFault, build_pack};
use std::alloc::Global;
use std::io::Read;
use tree_node::Digest;

/// How many bytes the line of a root has: 64 digits, and LF.
const LINE_LEN: usize = 65;

/// Packs the set of the input as [`pack`](crate::pack) does. The set may be larger than memory: its entries are sorted, and its
/// nodes kept, in stores of these makers, and `memory`, in bytes, bounds what is held of them (see
/// [`pack_build::build_pack`]).
///
/// # Errors
///
/// Those of `pack`; `Device` where a store fails, too.
///
/// Clauses that speak of the input's bytes do so where the reader tells them, and those that speak of the set where stores give
/// back what they were told.
pub fn pack_within<
    R: Read,
    B: BuildProgress,
    S: RunStore,
    M: StoreMaker<S> + Drop,
    P: ReplacingWriter,
    W: FlushingWriter,
>(
    alloc: Global,
    input: &mut R,
    edition: Edition,
    progress: &mut B,
    maker: M,
    makers: [M; 4],
    memory: usize,
    pack: &mut P,
    output: &mut W,
) -> Result<(), CommandFault>
    // The writers have gained exactly the pack of a publication of the set that the file holds, and the line of its root.
    ensures packed { S.is_true ≡ true
        → OnOk result (IfSome (R.remaining input.old) (λ file. HasPacked file edition
        (record { before = P.contents pack.old; after = P.contents pack.new })
        (record { before = W.contents output.old; after = W.contents output.new }))) }
    // The pack is in its place then, and nothing is held back.
    ensures placed { OnOk result ((P.is_in_place pack.new ≡ true) × (P.is_flushed pack.new ≡ true)
        × (W.is_flushed output.new ≡ true)) }
    // What holds a set is packed, unless memory or a device fails, its trees can't be made, or they are too long for a pack.
    ensures only { S.is_true ≡ true → IfSome (R.remaining input.old) (λ file. (set : List Element)
        → HoldsSet file set → IfErr result (IsOutsideOrLong file set edition)) }
    // Which fault it is. Where the reader never ended, some rest of the file was left.
    ensures refused { S.is_true ≡ true
        → IfSome (R.remaining input.old) (λ file. IfErr result (λ fault.
        (left : Option (List ℕ)) × Explains file left edition fault)) }
    // Nothing is written but where a device fails,
    ensures nothing { IfErr result (λ fault. fault ≢ CommandFault.Device
        → Keeps (P.contents pack.old) (P.contents pack.new)
        × Keeps (W.contents output.old) (W.contents output.new)) }
    // and the root isn't told before the pack is in its place.
    ensures in_order { OnErr result ((P.is_in_place pack.new ≡ true)
        ⊎ Keeps (W.contents output.old) (W.contents output.new)) }
{
    let built = build_pack(alloc, input, edition, progress, maker, makers, memory, pack);
    match built {
        Ok(root) => place_and_tell(&root, pack, output),
        Err(fault) => Err(command_fault(fault)),
    }
}

/// Puts a pack that was written in its place, and then writes the line of its root.
fn place_and_tell<P: ReplacingWriter, W: FlushingWriter>(
    root: &Digest,
    pack: &mut P,
    output: &mut W,
) -> Result<(), CommandFault>
    ensures told { OnOk result
        (Appends (W.contents output.old) (W.contents output.new) (digest_line root.now.0)) }
    ensures kept { Keeps (P.contents pack.old) (P.contents pack.new) }
    ensures placed { OnOk result ((P.is_in_place pack.new ≡ true) × (P.is_flushed pack.new ≡ true)
        × (W.is_flushed output.new ≡ true)) }
    ensures in_order { OnErr result ((P.is_in_place pack.new ≡ true)
        ⊎ Keeps (W.contents output.old) (W.contents output.new)) }
    ensures device { IfErr result (λ fault. fault ≡ CommandFault.Device) }
{
    pack.flush_all()?;
    pack.put_in_place()?;
    write_whole(output, &line_of(root))
}

/// The line of a root. It takes no memory, which might be refused once the pack is written.
fn line_of(root: &Digest) -> [u8; LINE_LEN]
    ensures { result ≡ digest_line root.now.0 }
{
    let mut line = [b'\n'; LINE_LEN];
    match hex::encode_to_slice(root.0, &mut line[..LINE_LEN - 1]) {
        Ok(()) => line,
        Err(_) => unreachable!("a digest has 32 bytes"),
    }
}

/// What the command is refused for.
fn command_fault(fault: BuildFault) -> CommandFault
    ensures { result ≡ fault_of_build fault }
{
    match fault {
        BuildFault::Load(load) => CommandFault::from(load),
        BuildFault::TooMany => CommandFault::TooMany,
        BuildFault::Clash => CommandFault::Clash,
        BuildFault::TooLong => CommandFault::TooLarge,
        BuildFault::Memory => CommandFault::Memory,
        BuildFault::Device | BuildFault::NotWritten => CommandFault::Device,
    }
}
