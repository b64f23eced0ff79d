//! Changing a publication whose trees a shelf gives.

ghost use Rattle.std.specs.Prelude.{◌≡◌, ◌↔◌, ℕ, List, Err, IfErr, IfOk, map};
ghost use Rattle.opl_codec.specs.declared.change.Change.{Change as SetChange};
ghost use Rattle.tree_build.specs.StrangeShelves.{HasNoTwin, cause_of};
ghost use Rattle.tree_node.specs.Outcomes.{RefusedFor};
ghost use Rattle.tree_node.specs.Shelves.{IsClashFree, Stays};
ghost use Rattle.osm_index.specs.Applying.{IsLast};
ghost use Rattle.osm_keys.specs.Publications.{IsNodeIn, Publication, root_of};
ghost use Rattle.osm_index.specs.declared.apply_fault.ApplyFault.TheVariants.{LastSequence};
ghost use Rattle.osm_index.specs.declared.update_fault.UpdateFault.TheVariants.{Apply};
ghost use Rattle.osm_index.specs.internal.Putting.{IsTreeNode};
ghost use Rattle.osm_index.specs.internal.Updates.{IsPlanOf, IsUnder, IsUpdateBy, RefusedBy, RefusesUpdate};

use crate::changed_trees::change_trees;
use crate::edition_after::edition_after;
use crate::object_changes::object_changes;
use crate::tree_changes::{TreeChanges, tree_changes};
use crate::update::{Update, update_of};
use crate::update_fault::UpdateFault;
use opl_codec::Change;
use osm_keys::{Edition, Manifest};
use std::alloc::Global;
use tree_build::RebuildFault;
use tree_node::{Digest, Shelf};

/// How changes turn a publication into the next one, before its trees are rebuilt. The trees are rebuilt over another
/// shelf, since the nodes that a shelf gives outlive it, and the plan has to outlive those.
#[derive(Drop)]
pub struct UpdatePlan {
    /// The next edition.
    pub(crate) edition: Edition,
    /// How the trees change.
    pub(crate) changes: TreeChanges,
}

impl UpdatePlan {
    /// Plans what these changes make of the publication with this manifest. It reads the objects that they name, with a
    /// walk down the object tree for each, and how many entries each tree has.
    ///
    /// Refused as [`Snapshot::apply`](crate::Snapshot::apply) refuses, but for a clash; with `Missing` where the shelf
    /// doesn't give a node that is needed, and with `NoTree` where what it gives is no tree of a publication.
    pub fn new<'a, S: Shelf<'a>>(
        alloc: Global,
        shelf: &mut S,
        manifest: &Manifest,
        changes: &[Change],
    ) -> Result<UpdatePlan, UpdateFault>
        ensures stays { Stays S.is_fixed (S.holds shelf.old) (S.holds shelf.new) }
        ensures grows { (bytes : List ℕ) → S.used shelf.old bytes → S.used shelf.new bytes }
        ensures planned { (p : Publication) → IsUnder p manifest.now (HasNoTwin (S.used shelf.new))
            → IfOk result (IsPlanOf p changes.now) }
        ensures last { (result ≡ Err (Apply LastSequence)) ↔ IsLast manifest.now.edition }
        ensures told { (p : Publication) → IsUnder p manifest.now (HasNoTwin (S.used shelf.new))
            → IfErr result (RefusedBy (RefusesUpdate p changes.now) (IsTreeNode p)
            (S.holds shelf.new)) }
    {
        let edition = edition_after(manifest.edition)?;
        let objects = object_changes(alloc, shelf, changes, &manifest.tops[0])?;
        let changes = tree_changes(
            alloc,
            shelf,
            &objects.removed,
            &objects.puts,
            &manifest.tops,
        )?;
        Ok(UpdatePlan { edition, changes })
    }

    /// Rebuilds the trees of the publication with this manifest and root, as planned. It reads the nodes that
    /// [`rebuild`](tree_build::rebuild) reads.
    pub fn carry_out<'a, S: Shelf<'a>>(
        &'a self,
        alloc: Global,
        shelf: &mut S,
        manifest: &Manifest,
        root: &Digest,
    ) -> Result<Update, RebuildFault>
        ensures stays { Stays S.is_fixed (S.holds shelf.old) (S.holds shelf.new) }
        ensures grows { (bytes : List ℕ) → S.used shelf.old bytes → S.used shelf.new bytes }
        ensures listed { IfOk result (λ update. update.added.items
            ≡ map (λ node. node.digest) update.nodes.items) }
        ensures made { (p : Publication) (all : List SetChange)
            → IsUnder p manifest.now (HasNoTwin (S.used shelf.new)) → IsClashFree (IsNodeIn p)
            → root.now.0 ≡ root_of p → IsPlanOf p all self.now
            → IfOk result (IsUpdateBy p all) }
        ensures told { (p : Publication) (all : List SetChange)
            → IsUnder p manifest.now (HasNoTwin (S.used shelf.new)) → IsPlanOf p all self.now
            → IfErr result
            (λ fault. RefusedFor (IsTreeNode p) (S.holds shelf.new) (cause_of fault)) }
    {
        let trees = change_trees(alloc, shelf, &manifest.tops, &self.changes)?;
        Ok(update_of(alloc, self.edition, trees, root)?)
    }
}
