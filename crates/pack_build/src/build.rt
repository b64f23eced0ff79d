//! Building a pack.

ghost use Rattle.std.specs.Prelude.{◌≡◌, ◌≢◌, [], IfErr, IfOk, IfSome, true};
ghost use Rattle.osm_keys.specs.Publications.{IsPublication, Publication, shape_of as shape_in_edition};
ghost use Rattle.tree_build.specs.Shapes.{shape_of as shape_word};
ghost use Rattle.pack_build.specs.Building.{Explains, IsBuilt};
ghost use Rattle.pack_build.specs.Taken.{taken_by};
ghost use Rattle.pack_build.specs.Trees.{AreTreesOf, IsPackedAs, IsUnpacked};
ghost use Rattle.pack_build.specs.internal.Sorting.{IsSorted};

use crate::fault::BuildFault;
use crate::sink::TreesSink;
use entry_sort::sort_entries;
use external_sort::{RunStore, Sorter, StoreMaker};
use level_files::FinishedTrees;
use osm_index::BuildProgress;
use osm_keys::Edition;
use pack_assembly::{BuiltTrees, write_pack_of_levels};
use std::alloc::Global;
use std::io::{Read, Write};
use tree_build::Shape;
use tree_node::Digest;
use tree_stream::WriterFault;

/// Reads the input as the OPL text of a set of objects, writes the pack of the set in this edition, and gives its root. The
/// entries of the trees are sorted in runs, in stores of `maker`, and the nodes of the four trees are kept by level, each tree's
/// in stores of a maker of its own. The writer gets small pieces and isn't flushed.
///
/// `memory`, in bytes, bounds what is held of the set while it is sorted (see `entry_sort::sort_entries`), and the digests that
/// are sorted to see that no two nodes share one. Beside it a node for each level of a tree is held.
///
/// `progress` is told of each tree before its entries are merged, and how many objects the set has. Nothing that is built
/// depends on it.
///
/// # Errors
///
/// `Load` where the input holds no set of objects, by its first line at fault, or where its reader fails or never ends;
/// `TooMany` where a tree would have more than 2^29 entries; then `Clash` where two different nodes have one digest; then
/// `TooLong` where a record would have 2^32 bytes or more, or the pack more than 2^48; `Memory` where memory is refused;
/// `Device` where a store fails; `NotWritten` where the writer fails or takes nothing, and where there is no memory for a node
/// while the pack is written. Nothing is written then, but after the last two a beginning of the pack may be.
///
/// Clauses that speak of what is written have the premise that stores give back what they were told (`is_true`).
pub fn build_pack<R: Read, S: RunStore, M: StoreMaker<S> + Drop, W: Write, B: BuildProgress>(
    alloc: Global,
    input: &mut R,
    edition: Edition,
    progress: &mut B,
    maker: M,
    makers: [M; 4],
    memory: usize,
    pack: &mut W,
) -> Result<Digest, BuildFault>
    // What is written is the pack of a publication of the set that the file holds, and its root is given.
    ensures built { S.is_true ≡ true → IfOk result (λ root. IfSome (R.remaining input.old) (λ file.
        IsBuilt file edition root.0 (W.contents pack.old) (W.contents pack.new))) }
    // Which fault it is.
    ensures refused { S.is_true ≡ true → IfSome (R.remaining input.old) (λ file.
        IfErr result (Explains file edition)) }
    // Nothing is written but where a device or the writer fails.
    ensures untouched { IfErr result
        (λ fault. fault ≢ BuildFault.Device → fault ≢ BuildFault.NotWritten
        → pack.new ≡ pack.old) }
{
    let mut maker = maker;
    let mut sink = TreesSink::new(alloc, shape_of(edition), progress, makers);
    match sort_entries(alloc, input, &mut maker, memory, &mut sink) {
        Ok(()) => finish_sorted(alloc, edition, sink, maker, memory, pack),
        Err(fault) => Err(BuildFault::from(fault)),
    }
}

/// Ends the trees of a set in this edition, which have taken its entries, writes their pack, and gives its root.
fn finish_sorted<S: RunStore, M: StoreMaker<S> + Drop, W: Write, B: BuildProgress>(
    alloc: Global,
    edition: Edition,
    sink: TreesSink<'_, S, M, B>,
    maker: M,
    memory: usize,
    pack: &mut W,
) -> Result<Digest, BuildFault>
    ensures built { S.is_true ≡ true → (p : Publication)
        → shape_word sink.entry.1 ≡ shape_in_edition edition
        → IsSorted p edition (taken_by sink.entry.2 sink.entry.3 sink.entry.4 sink.entry.5)
        → IfOk result (IsPackedAs p (W.contents pack.old) (W.contents pack.new)) }
    ensures refused { S.is_true ≡ true → (p : Publication)
        → shape_word sink.entry.1 ≡ shape_in_edition edition
        → IsSorted p edition (taken_by sink.entry.2 sink.entry.3 sink.entry.4 sink.entry.5)
        → IfErr result (IsUnpacked p) }
    ensures untouched { IfErr result
        (λ fault. fault ≢ BuildFault.Device → fault ≢ BuildFault.NotWritten
        → pack.new ≡ pack.old) }
{
    let mut maker = maker;
    match sink.into_builder().finish() {
        Ok(trees) => {
            let Ok(store) = maker.make_store() else {
                return Err(BuildFault::Device);
            };
            write_trees(alloc, edition, trees, store, memory, pack)
        }
        Err(WriterFault::Memory) => Err(BuildFault::Memory),
        Err(WriterFault::Device) => Err(BuildFault::Device),
    }
}

/// Writes the pack of these trees, which are in this edition, and gives its root. The store, which is empty, is for the digests of
/// nodes, of which `memory` bytes are held while they are sorted. The writer gets small pieces and isn't flushed.
///
/// Refused with `Clash`, `TooLong`, `Memory`, `Device` and `NotWritten`, as [`build_pack`] is.
pub fn write_trees<S: RunStore, W: Write>(
    alloc: Global,
    edition: Edition,
    trees: FinishedTrees<S>,
    store: S,
    memory: usize,
    pack: &mut W,
) -> Result<Digest, BuildFault>
    requires runs { S.runs store ≡ [] }
    requires in_hand { S.in_hand store ≡ [] }
    // If the trees are those of a publication, its pack is written, and its root is given.
    ensures built { S.is_true ≡ true → (p : Publication) → IsPublication p → p.edition ≡ edition
        → AreTreesOf p trees
        → IfOk result (IsPackedAs p (W.contents pack.old) (W.contents pack.new)) }
    // Which fault it is then.
    ensures refused { S.is_true ≡ true → (p : Publication) → IsPublication p → p.edition ≡ edition
        → AreTreesOf p trees → IfErr result (IsUnpacked p) }
    // Nothing is written but where a device or the writer fails.
    ensures untouched { IfErr result
        (λ fault. fault ≢ BuildFault.Device → fault ≢ BuildFault.NotWritten
        → pack.new ≡ pack.old) }
{
    let digests = Sorter::new(alloc, store, memory);
    let FinishedTrees {
        tops,
        heights,
        mut levels,
    } = trees;
    let built = BuiltTrees {
        edition,
        tops,
        heights,
    };
    match write_pack_of_levels(alloc, &built, &mut levels, digests, pack) {
        Ok(root) => Ok(root),
        Err(fault) => Err(BuildFault::from(fault)),
    }
}

/// The shape of an edition's trees.
pub fn shape_of(edition: Edition) -> Shape
    ensures { shape_word result ≡ shape_in_edition edition }
{
    match edition {
        Edition::One => Shape::One,
        Edition::Two { sequence: _ } => Shape::Two,
    }
}
