//! What changes take out of a set of objects and put into it.

ghost use Rattle.std.specs.Prelude.{◌≢◌, ℕ, List, IfErr, IfOk};
ghost use Rattle.tree_build.specs.StrangeShelves.{HasNoTwin};
ghost use Rattle.tree_node.specs.Shelves.{Stays};
ghost use Rattle.tree_node.specs.Trees.{IsNodeOf};
ghost use Rattle.tree_node.specs.declared.tree.Tree.TheVariants.{Objects};
ghost use Rattle.osm_keys.specs.Publications.{Publication, tree_in};
ghost use Rattle.osm_index.specs.internal.Applying.{AreObjectChangesOf, RefusesChanges};
ghost use Rattle.osm_index.specs.internal.HeldTrees.{HoldsTree};
ghost use Rattle.osm_index.specs.declared.apply_fault.ApplyFault.TheVariants.{LastSequence};
ghost use Rattle.osm_index.specs.declared.update_fault.UpdateFault.TheVariants.{Apply};
ghost use Rattle.osm_index.specs.internal.Updates.{RefusedBy};

use crate::change_refusals::{refuse_missing_deletes, refuse_repeats};
use crate::named_objects::named_objects;
use crate::put_objects::copies_of_put;
use crate::update_fault::UpdateFault;
use opl_codec::Change;
use osm_model::ObjectSet;
use std::alloc::Global;
use tree_node::{Digest, Shelf};

/// What changes take out of a set of objects and put into it.
#[derive(Drop)]
pub(crate) struct ObjectChanges {
    /// The objects of the set that the changes name.
    pub(crate) removed: ObjectSet,
    /// The objects that are put.
    pub(crate) puts: ObjectSet,
}

/// What these changes take out of a set and put into it, whose object tree is under this top.
///
/// Refused with `ChangedTwice` by the earliest change whose object an earlier one names, else with `NotThere` by
/// the earliest delete of an object that isn't in the set; out of memory; and by what the shelf gives.
pub(crate) fn object_changes<'a, S: Shelf<'a>>(
    alloc: Global,
    shelf: &mut S,
    changes: &[Change],
    top: &Digest,
) -> Result<ObjectChanges, UpdateFault>
    ensures stays { Stays S.is_fixed (S.holds shelf.old) (S.holds shelf.new) }
    ensures grows { (bytes : List ℕ) → S.used shelf.old bytes → S.used shelf.new bytes }
    ensures given { (p : Publication)
        → HoldsTree p Objects top.now.0 (HasNoTwin (S.used shelf.new))
        → IfOk result (AreObjectChangesOf p.objects changes.now) }
    ensures later { IfErr result (λ fault. fault ≢ Apply LastSequence) }
    ensures told { (p : Publication)
        → HoldsTree p Objects top.now.0 (HasNoTwin (S.used shelf.new))
        → IfErr result (RefusedBy (RefusesChanges p.objects changes.now) (IsNodeOf (tree_in p Objects))
        (S.holds shelf.new)) }
{
    refuse_repeats(alloc, changes)?;
    let removed = named_objects(alloc, shelf, changes, top)?;
    refuse_missing_deletes(&removed, changes)?;
    let puts = copies_of_put(alloc, changes)?;
    Ok(ObjectChanges { removed, puts })
}
