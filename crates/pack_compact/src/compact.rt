//! Writing the pack of a publication that stands in files.

ghost use Rattle.std.specs.Prelude.{◌≡◌, ◌≢◌, ◌⊎◌, ℕ, Err, IfErr, List, MatchResult, OnOk, Option, true};
ghost use Rattle.tree_node.specs.declared.tree.Tree.{Tree as TreeWord};
ghost use Rattle.osm_keys.specs.Manifests.{HasSequence, top_among};
ghost use Rattle.osm_keys.specs.Publications.{IsPublication, Publication, top_in};
ghost use Rattle.pack_assembly.specs.Packing.{IsPacked};
ghost use Rattle.pack_build.specs.Trees.{AreTreesOf};
ghost use Rattle.pack_compact.specs.Compacting.{IsOutside, IsReason};
ghost use Rattle.pack_compact.specs.internal.Copying.{AreHeld, HasTops, Holding, IsFailure};
ghost use Rattle.pack_compact.specs.declared.fault.CompactFault.TheVariants.{NoManifest};
ghost use Rattle.pack_files.specs.Joined.{joined};
ghost use Rattle.pack_update.specs.Adding.{HasSecondPreimage, IsRootOf};
ghost use Rattle.pack_update.specs.Faults.{IsNoManifest};
ghost use Rattle.pack_update.specs.Files.{AreFilesOf};

use crate::copy::{copy_trees, read_node};
use crate::fault::CompactFault;
use external_sort::{RunStore, StoreMaker};
use level_files::{FinishedTrees, TreesBuilder};
use node_pack::{Place, ReadAt, Record};
use osm_keys::{Edition, Manifest, read_manifest};
use pack_build::{shape_of, write_trees};
use std::alloc::Global;
use std::io::Write;
use tree_node::Digest;

/// Writes the pack of the publication with this root, whose nodes stand in files. The files are read as one, and the place is that of
/// the manifest. The pack is the one that [`build_pack`](pack_build::build_pack) writes of the publication's set.
///
/// Nothing that the files give is trusted: each node is digested before it is taken, and nothing is written before the trees are
/// known to be those under the root. Each node is read once; its entries go to stores of `makers`, from which the pack is put
/// together. `memory`, in bytes, bounds what is held of the digests that are sorted, in a store of `maker`, to see that no two nodes
/// share one. Beside it a node for each level of a tree is held, which doesn't grow with the set. The writer gets small pieces and
/// isn't flushed.
///
/// # Errors
///
/// `Source` where a node isn't given that is needed: `Absent` where no place is told of it, `Other` where other bytes than its own
/// stand there, `Device` where the files can't be read or end before it. `NoManifest` where the node with the root is no manifest, and
/// `NoTree` where what is under it is no tree; then `Clash` where two different nodes have one digest, and `TooLong` where a record
/// would have 2^32 bytes or more, or the pack more than 2^48; `Memory` where memory is refused; `Device` where a store fails;
/// `NotWritten` where the writer fails or takes nothing, and where there is no memory for a node while the pack is written. Nothing is
/// written then, but after the last two a beginning of the pack may be.
///
/// Clauses that speak of what is written have the premise that stores give back what they were told (`is_true`).
pub fn compact_files<F: ReadAt, S: RunStore, M: StoreMaker<S> + Drop, W: Write>(
    alloc: Global,
    files: &mut F,
    root: &Digest,
    manifest: Place,
    maker: M,
    makers: [M; 4],
    memory: usize,
    pack: &mut W,
) -> Result<(), CompactFault>
    // Under the root of a publication, whatever the files hold: what is written is its pack, unless one of its nodes and another
    // byte string have one digest.
    ensures safe { S.is_true ≡ true → (p : Publication) → IsRootOf p root.now.0
        → OnOk result (IsPacked p (W.contents pack.old) (W.contents pack.new))
        ⊎ HasSecondPreimage p }
    // Of files that have its nodes it is written, unless memory or a device fails, or it has no pack, with the same exception.
    ensures whole { S.is_true ≡ true → (p : Publication) (contents : List (List ℕ))
        → IsRootOf p root.now.0
        → F.reads files.old (joined contents) → AreFilesOf contents p manifest
        → IfErr result (IsOutside p) ⊎ HasSecondPreimage p }
    // Under the root of a publication each refusal has its reason, with the same exception,
    ensures refused { S.is_true ≡ true → (p : Publication) → IsRootOf p root.now.0
        → IfErr result (IsReason p) ⊎ HasSecondPreimage p }
    // and where no manifest is told, another byte string has the root.
    ensures no_manifest { result ≡ Err NoManifest → IsNoManifest root.now.0 }
    // Nothing is written but where a device or the writer fails.
    ensures untouched { IfErr result
        (λ fault. fault ≢ CompactFault.Device → fault ≢ CompactFault.NotWritten
        → pack.new ≡ pack.old) }
{
    let record = read_node(alloc, files, root, manifest)?;
    let Some(manifest) = read_manifest(record.node()) else {
        return Err(CompactFault::NoManifest);
    };
    sequence_fits(manifest.edition);
    let trees = copied_trees(alloc, files, &record, &manifest, makers)?;
    if !are_same(&trees.tops, &manifest.tops) {
        return Err(CompactFault::NoTree);
    }
    let mut maker = maker;
    let Ok(store) = maker.make_store() else {
        return Err(CompactFault::Device);
    };
    write_trees(alloc, manifest.edition, trees, store, memory, pack)?;
    Ok(())
}

/// The trees that are built of the entries of those that a manifest with this record names, each in stores of a maker of its own.
fn copied_trees<F: ReadAt, S: RunStore, M: StoreMaker<S> + Drop>(
    alloc: Global,
    files: &mut F,
    record: &Record,
    manifest: &Manifest,
    makers: [M; 4],
) -> Result<FinishedTrees<S>, CompactFault>
    ensures copied { (p : Publication) (known : Option Holding) → IsPublication p
        → manifest.now.edition ≡ p.edition
        → ((tree : TreeWord) → top_among manifest.now.tops tree ≡ top_in p tree)
        → HasTops p known «record».now
        → AreHeld (F.reads files.old) known
        → MatchResult result (AreTreesOf p) (IsFailure known) ⊎ HasSecondPreimage p }
    ensures told { IfErr result (λ fault. fault ≢ NoManifest) }
{
    let mut builder = TreesBuilder::new(alloc, shape_of(manifest.edition), makers);
    copy_trees(alloc, files, record, manifest, &mut builder)?;
    Ok(builder.finish()?)
}

/// A sequence number fits its eight bytes. There is nothing to do when it runs.
fn sequence_fits(edition: Edition)
    ensures { HasSequence edition }
{
    match edition {
        Edition::One | Edition::Two { .. } => {}
    }
}

/// Whether these tops are the same.
fn are_same(tops: &[Digest; 4], others: &[Digest; 4]) -> bool
    ensures { ((tree : TreeWord) → top_among tops.now tree ≡ top_among others.now tree)
        → result ≡ true }
{
    tops == others
}
