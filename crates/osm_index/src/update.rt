//! What a publication becomes by changes.

ghost use Rattle.std.specs.Prelude.{◌≡◌, ◌≢◌, IfOk, map};
ghost use Rattle.tree_node.specs.Shelves.{IsClashFree};
ghost use Rattle.osm_keys.specs.Manifests.{manifest_bytes};
ghost use Rattle.osm_keys.specs.Publications.{IsNodeIn, IsPublicationOf, Publication, manifest_of, root_of};
ghost use Rattle.osm_index.specs.internal.ChangedTrees.{AreChangedTrees};
ghost use Rattle.osm_index.specs.internal.Updates.{IsUpdate};

use crate::changed_trees::ChangedTrees;
use crate::node_changes::digests_of;
use osm_keys::{Edition, Manifest, write_manifest};
use std::alloc::{AllocError, Global};
use tree_node::{Digest, NewNode};

/// What a publication becomes by changes, and the nodes that come and go.
#[derive(Drop)]
pub struct Update {
    /// The new manifest.
    pub manifest: Manifest,
    /// The new root.
    pub root: Digest,
    /// The nodes that the old publication doesn't have, each once.
    pub nodes: Vec<NewNode>,
    /// Their digests.
    pub added: Vec<Digest>,
    /// The digests of the nodes that only the old publication has, each once.
    pub gone: Vec<Digest>,
}

/// The update by which these trees come into the place of the old ones, whose root is given, in a new edition.
pub(crate) fn update_of(
    alloc: Global,
    edition: Edition,
    trees: ChangedTrees,
    old_root: &Digest,
) -> Result<Update, AllocError>
    ensures listed { IfOk result (λ update. update.added.items
        ≡ map (λ node. node.digest) update.nodes.items) }
    ensures made { (p q : Publication) → IsPublicationOf q.objects edition q
        → AreChangedTrees p q trees
        → old_root.now.0 ≡ root_of p → manifest_of p ≢ manifest_of q → IsClashFree (IsNodeIn p)
        → IfOk result (IsUpdate p q) }
{
    let tops = trees.tops;
    let manifest = Manifest { edition, tops };
    let node = manifest_node(alloc, &manifest)?;
    let root = node.digest;
    let mut nodes = trees.added;
    nodes.push(node)?;
    let mut gone = trees.gone;
    gone.push(*old_root)?;
    let added = digests_of(alloc, &nodes)?;
    Ok(Update {
        manifest,
        root,
        nodes,
        added,
        gone,
    })
}

/// A manifest as a node.
fn manifest_node(alloc: Global, manifest: &Manifest) -> Result<NewNode, AllocError>
    ensures { IfOk result (λ node. node.bytes.items ≡ manifest_bytes manifest.now) }
{
    let mut bytes = Vec::new(alloc);
    write_manifest(manifest, &mut bytes)?;
    Ok(NewNode::new(bytes))
}
