//! A set of objects with its lines, its trees and its root.

ghost use Rattle.std.specs.Prelude.{◌≡◌, Err, IfOk};
ghost use Rattle.tree_node.specs.Outcomes.{Clash};
ghost use Rattle.light_index.specs.LightHoldings.{HoldSomeLight};
ghost use Rattle.light_index.specs.LightPublications.{HasTooManyLight, IsLightNodeIn, IsLightPublicationOf, LightPublication};

use crate::lines::line_nodes;
use crate::put_lines::put_lines;
use crate::put_manifest::put_manifest;
use crate::put_trees::put_trees;
use light_keys::LightManifest;
use osm_index::IndexFault;
use osm_model::ObjectSet;
use std::alloc::Global;
use tree_node::{Digest, Stock};

/// A set of objects at a sequence, with its lines, the nodes of its trees, its manifest and its root: the type keeps
/// that they are those of one publication, and that no two different nodes of it have one digest.
#[derive(Drop)]
pub struct LightSnapshot {
    stock: Stock,
    manifest: LightManifest,
    root: Digest,
    ghost own: { ∥ HoldSomeLight stock manifest root ∥₁ },
}

impl LightSnapshot {
    ghost use Rattle.light_index.specs.LightSnapshots.{HoldsLightPublication};

    /// Builds the trees of a set of objects whose entries state digests of lines, and keeps the lines beside them. The
    /// sequence is the number of the root in the publisher's sequence of roots.
    ///
    /// Each object's line is written and digested once. Beyond that the time is that of sorting the entries of each
    /// tree and of hashing all nodes; the entries of one tree at a time are held beside the nodes. What the snapshot
    /// holds comes from `alloc`.
    ///
    /// Refused with `TooMany` (I4) where a tree would have more than 2^29 entries, else with `Clash` (I1) where two
    /// different nodes have one digest; `Memory` may come in place of any answer.
    pub fn build(alloc: Global, set: ObjectSet, sequence: u64) -> Result<LightSnapshot, IndexFault>
        // The snapshot holds a publication of this set at this sequence.
        ensures made { IfOk result (λ snapshot. (p : LightPublication)
            × HoldsLightPublication snapshot p
            × (p.objects ≡ set) × (snapshot.manifest.sequence ≡ sequence)) }
        // There are too many entries where it says so,
        ensures too_many { result ≡ Err IndexFault.TooMany → HasTooManyLight set }
        // and two nodes of a publication clash where it says so.
        ensures clash { result ≡ Err IndexFault.Clash → (p : LightPublication)
            × IsLightPublicationOf set sequence p × Clash (IsLightNodeIn p) (IsLightNodeIn p) }
    {
        let lines = line_nodes(alloc, set.as_slice())?;
        let mut stock = Stock::new(alloc);
        let Some(tops) = put_trees(alloc, &set, &lines, &mut stock)? else {
            return Err(IndexFault::Clash);
        };
        put_lines(&mut stock, lines)?;
        let manifest = LightManifest { sequence, tops };
        let root = put_manifest(alloc, &manifest, &mut stock)?;
        Ok(LightSnapshot {
            stock,
            manifest,
            root,
        })
    }

    /// The root: the digest of the manifest.
    pub fn root(&self) -> &Digest
        ensures { result.now ≡ self.now.root }
    {
        &self.root
    }

    /// The sequence.
    pub fn sequence(&self) -> u64
        ensures { result ≡ self.now.manifest.sequence }
    {
        self.manifest.sequence
    }

    /// The lines, the nodes of the trees, and the manifest.
    pub fn stock(&self) -> &Stock
        ensures { result.now ≡ self.now.stock }
    {
        &self.stock
    }

    /// The manifest.
    pub fn manifest(&self) -> &LightManifest
        ensures { result.now ≡ self.now.manifest }
    {
        &self.manifest
    }
}
