//! Taking the entries of trees whose nodes stand in files.

ghost use Rattle.std.specs.Prelude.{◌≡◌, ◌≢◌, ◌⊎◌, ◌+◌, ◌++◌, ◌<◌, [], ℕ, IfErr, IfOk, List, MatchResult, Option, true};
ghost use Rattle.tree_node.specs.Digests.{digest};
ghost use Rattle.tree_node.specs.NodeRefs.{number_of};
ghost use Rattle.tree_node.specs.Nodes.{AreBytes, Binding, Node};
ghost use Rattle.tree_node.specs.Trees.{HasTree};
ghost use Rattle.tree_node.specs.declared.tree.Tree.{Tree as TreeWord};
ghost use Rattle.osm_keys.specs.Manifests.{top_among};
ghost use Rattle.osm_keys.specs.Publications.{IsPublication, Publication, shape_in, top_in};
ghost use Rattle.level_files.specs.Built.{HasEntries};
ghost use Rattle.node_pack.specs.Packs.{node_in};
ghost use Rattle.node_pack.specs.WholeRecords.{bytes_in};
ghost use Rattle.pack_update.specs.Adding.{HasSecondPreimage};
ghost use Rattle.pack_compact.specs.declared.fault.CompactFault.TheVariants.{NoManifest};
ghost use Rattle.pack_compact.specs.internal.Copying.{AreHeld, CanCopy, HasTops, Holding};
ghost use Rattle.pack_compact.specs.internal.Copying.{IsFailure, IsPlaceOf, IsRecordOf, IsTakenTo};

use crate::fault::CompactFault;
use external_sort::{RunStore, StoreMaker};
use level_files::TreesBuilder;
use node_pack::{Place, ReadAt, Record};
use osm_keys::Manifest;
use outside_shelf::{Refused, bytes_law};
use std::alloc::Global;
use tree_node::{Digest, Entries, LEVEL_LIMIT, NodeRef, Tree, digest_of};

/// The record with the node of this digest, which should stand at this place.
pub(crate) fn read_node<F: ReadAt>(
    alloc: Global,
    files: &mut F,
    key: &Digest,
    place: Place,
) -> Result<Record, CompactFault>
    ensures has_digest { IfOk result (λ whole. digest (node_in (bytes_in whole)) ≡ key.now.0) }
    ensures bytes { IfOk result (λ whole. AreBytes (node_in (bytes_in whole))) }
    ensures ends { (known : Option Holding) → AreHeld (F.reads files.old) known
        → IsPlaceOf known key.now.0 place
        → MatchResult result (IsRecordOf known key.now.0) (IsFailure known) }
    ensures stays { (bytes : List ℕ) → F.reads files.old bytes → F.reads files.new bytes }
{
    let record = Record::read(alloc, files, place)?;
    let node = record.node();
    bytes_law(node);
    if digest_of(node) != *key {
        return Err(CompactFault::Source(Refused::Other));
    }
    Ok(record)
}

/// Takes the entries of the four trees of a manifest with this record, tree by tree.
pub(crate) fn copy_trees<F: ReadAt, S: RunStore, M: StoreMaker<S>>(
    alloc: Global,
    files: &mut F,
    record: &Record,
    manifest: &Manifest,
    builder: &mut TreesBuilder<S, M>,
) -> Result<(), CompactFault>
    ensures copied { (p : Publication) (known : Option Holding) → IsPublication p
        → ((tree : TreeWord) → top_among manifest.now.tops tree ≡ top_in p tree)
        → HasTops p known «record».now
        → AreHeld (F.reads files.old) known → HasEntries builder.old (shape_in p) (λ tree. [])
        → MatchResult result (λ _. HasEntries builder.new (shape_in p) p.entries) (IsFailure known)
        ⊎ HasSecondPreimage p }
    ensures told { IfErr result (λ fault. fault ≢ NoManifest) }
{
    copy_tree(alloc, files, record, manifest, Tree::Objects, 0, builder)?;
    copy_tree(alloc, files, record, manifest, Tree::Tags, 1, builder)?;
    copy_tree(alloc, files, record, manifest, Tree::Cells, 2, builder)?;
    copy_tree(alloc, files, record, manifest, Tree::Backs, 3, builder)
}

/// Takes the entries of a tree, which has this number among those of a manifest with this record.
fn copy_tree<F: ReadAt, S: RunStore, M: StoreMaker<S>>(
    alloc: Global,
    files: &mut F,
    record: &Record,
    manifest: &Manifest,
    tree: Tree,
    number: usize,
    builder: &mut TreesBuilder<S, M>,
) -> Result<(), CompactFault>
    requires { number < 4 }
    ensures copied { (p : Publication) (known : Option Holding) (others : TreeWord → List Binding)
        → IsPublication p
        → number_of tree ≡ number + 1 → top_among manifest.now.tops tree ≡ top_in p tree
        → HasTops p known «record».now
        → AreHeld (F.reads files.old) known → IsTakenTo p others tree builder.old (p.entries tree)
        → MatchResult result (λ _. IsTakenTo p others tree builder.new []) (IsFailure known)
        ⊎ HasSecondPreimage p }
    ensures told { IfErr result (λ fault. fault ≢ NoManifest) }
    ensures stays { (bytes : List ℕ) → F.reads files.old bytes → F.reads files.new bytes }
{
    let Some(place) = record.child_place(number) else {
        return Err(CompactFault::Source(Refused::Absent));
    };
    let top = manifest.tops[number];
    copy_below(alloc, files, tree, &top, place, LEVEL_LIMIT, builder)
}

/// Takes the entries below the node with this digest, which should stand at this place, in the order of their keys. Below it there
/// are at most so many levels.
///
/// Each leaf but a tree's only one has an entry, whose key is above those before it. So it ends, whatever the files have, after no
/// more leaves than there are entries.
fn copy_below<F: ReadAt, S: RunStore, M: StoreMaker<S>>(
    alloc: Global,
    files: &mut F,
    tree: Tree,
    key: &Digest,
    place: Place,
    depth: u8,
    builder: &mut TreesBuilder<S, M>,
) -> Result<(), CompactFault>
    ensures copied { (p : Publication) (known : Option Holding) (others : TreeWord → List Binding)
        (level : ℕ) (node : Node) (entries left : List Binding)
        → HasTree (p.entries tree) → CanCopy p known key.now.0 place depth level node entries
        → AreHeld (F.reads files.old) known → IsTakenTo p others tree builder.old (entries ++ left)
        → MatchResult result (λ _. IsTakenTo p others tree builder.new left) (IsFailure known)
        ⊎ HasSecondPreimage p }
    ensures told { IfErr result (λ fault. fault ≢ NoManifest) }
    ensures stays { (bytes : List ℕ) → F.reads files.old bytes → F.reads files.new bytes }
{
    let record = read_node(alloc, files, key, place)?;
    match NodeRef::read(record.node()) {
        Ok(NodeRef::Leaf { tree: _, entries }) => {
            take_leaf(tree, entries, depth == LEVEL_LIMIT, builder)
        }
        Ok(
            NodeRef::Inner {
                tree: _,
                level: _,
                children,
            },
        ) => {
            if depth == 0 {
                return Err(CompactFault::NoTree);
            }
            let mut number = 0usize;
            for child in children {
                let Some(place) = record.child_place(number) else {
                    return Err(CompactFault::Source(Refused::Absent));
                };
                copy_below(alloc, files, tree, &child.digest, place, depth - 1, builder)?;
                number += 1;
            }
            Ok(())
        }
        Err(_) => Err(CompactFault::NoTree),
    }
}

/// Takes the entries of a leaf. Refused with `NoTree` where it has none, unless it may be empty.
fn take_leaf<S: RunStore, M: StoreMaker<S>>(
    tree: Tree,
    entries: Entries<'_>,
    may_be_empty: bool,
    builder: &mut TreesBuilder<S, M>,
) -> Result<(), CompactFault>
    ensures taken { (p : Publication) (known : Option Holding) (others : TreeWord → List Binding)
        (left : List Binding)
        → HasTree (p.entries tree) → (entries.entry ≢ []) ⊎ (may_be_empty ≡ true)
        → IsTakenTo p others tree builder.old (entries.entry ++ left)
        → MatchResult result (λ _. IsTakenTo p others tree builder.new left) (IsFailure known) }
    ensures told { IfErr result (λ fault. fault ≢ NoManifest) }
{
    let mut is_empty = true;
    for entry in entries {
        builder.push(tree, entry.key, entry.value)?;
        is_empty = false;
    }
    if is_empty && !may_be_empty {
        return Err(CompactFault::NoTree);
    }
    Ok(())
}
