//! How the entries of the four trees change with a set of objects.

ghost use Rattle.std.specs.Prelude.{◌≡◌, ◌≢◌, ◌⊎◌, ◌+◌, ◌<◌, ◌≤◌, ◌^◌, ℕ, List, IfErr, IfNone, IfOk, IfSome};
ghost use Rattle.osm_model.specs.Elements.{Element};
ghost use Rattle.tree_build.specs.Rebuilding.{changes_of};
ghost use Rattle.tree_build.specs.StrangeShelves.{HasNoTwin};
ghost use Rattle.tree_node.specs.Shelves.{Stays};
ghost use Rattle.tree_node.specs.Trees.{IsNodeOf};
ghost use Rattle.osm_keys.specs.Publications.{Publication, tree_in};
ghost use Rattle.osm_index.specs.declared.apply_fault.ApplyFault.TheVariants.{LastSequence};
ghost use Rattle.osm_index.specs.declared.update_fault.UpdateFault.TheVariants.{Apply};
ghost use Rattle.osm_index.specs.internal.ChangedTrees.{AreHeldTrees, HoldsChanging, IsChangeOf, AreChangesOf};
ghost use Rattle.osm_index.specs.internal.Putting.{IsTreeNode};
ghost use Rattle.osm_index.specs.internal.Updates.{RefusedBy, RefusesTrees};

use crate::apply_fault::ApplyFault;
use crate::entry_changes::entry_changes;
use crate::held_tree::entry_count;
use crate::listing::entries_of;
use crate::update_fault::UpdateFault;
use osm_model::ObjectSet;
use std::alloc::Global;
use tree_build::EntryChange;
use tree_node::{Digest, ENTRY_LIMIT, Shelf, Tree};

/// How the entries of the four trees change, each by rising key.
#[derive(Drop)]
pub(crate) struct TreeChanges {
    pub(crate) objects: Vec<EntryChange>,
    pub(crate) tags: Vec<EntryChange>,
    pub(crate) cells: Vec<EntryChange>,
    pub(crate) backs: Vec<EntryChange>,
}

/// How the four trees under these tops change: the old objects go, and the others are put.
///
/// Refused with `TooMany` where a tree would have more than 2^29 entries, out of memory, and by what the shelf gives.
pub(crate) fn tree_changes<'a, S: Shelf<'a>>(
    alloc: Global,
    shelf: &mut S,
    removed: &ObjectSet,
    puts: &ObjectSet,
    tops: &[Digest; 4],
) -> Result<TreeChanges, UpdateFault>
    ensures stays { Stays S.is_fixed (S.holds shelf.old) (S.holds shelf.new) }
    ensures grows { (bytes : List ℕ) → S.used shelf.old bytes → S.used shelf.new bytes }
    ensures changed { (p : Publication) (set : List Element)
        → AreHeldTrees p removed.now puts.now set tops.now (HasNoTwin (S.used shelf.new))
        → IfOk result (AreChangesOf p set) }
    ensures later { IfErr result (λ fault. fault ≢ Apply LastSequence) }
    ensures told { (p : Publication) (set : List Element)
        → AreHeldTrees p removed.now puts.now set tops.now (HasNoTwin (S.used shelf.new))
        → IfErr result (RefusedBy (RefusesTrees set) (IsTreeNode p) (S.holds shelf.new)) }
{
    let objects = one_tree(alloc, shelf, removed, puts, Tree::Objects, &tops[0])?;
    let tags = one_tree(alloc, shelf, removed, puts, Tree::Tags, &tops[1])?;
    let cells = one_tree(alloc, shelf, removed, puts, Tree::Cells, &tops[2])?;
    let backs = one_tree(alloc, shelf, removed, puts, Tree::Backs, &tops[3])?;
    Ok(TreeChanges {
        objects,
        tags,
        cells,
        backs,
    })
}

/// How the tree under this top changes.
fn one_tree<'a, S: Shelf<'a>>(
    alloc: Global,
    shelf: &mut S,
    removed: &ObjectSet,
    puts: &ObjectSet,
    tree: Tree,
    top: &Digest,
) -> Result<Vec<EntryChange>, UpdateFault>
    ensures stays { Stays S.is_fixed (S.holds shelf.old) (S.holds shelf.new) }
    ensures grows { (bytes : List ℕ) → S.used shelf.old bytes → S.used shelf.new bytes }
    ensures changed { (p : Publication) (set : List Element)
        → HoldsChanging p removed.now puts.now set tree top.now.0 (HasNoTwin (S.used shelf.new))
        → IfOk result (λ all. IsChangeOf p set tree (changes_of all.items)) }
    ensures later { IfErr result (λ fault. fault ≢ Apply LastSequence) }
    ensures told { (p : Publication) (set : List Element)
        → HoldsChanging p removed.now puts.now set tree top.now.0 (HasNoTwin (S.used shelf.new))
        → IfErr result (RefusedBy (RefusesTrees set) (IsNodeOf (tree_in p tree)) (S.holds shelf.new)) }
{
    let old = entries_of(alloc, removed, tree)?;
    let new = entries_of(alloc, puts, tree)?;
    let old = old.sorted(alloc)?;
    let new = new.sorted(alloc)?;
    let number = entry_count(alloc, shelf, tree, top)?;
    match count_after(number, old.len() as u64, new.len() as u64) {
        None => Err(UpdateFault::NoTree),
        Some(after) if after > ENTRY_LIMIT as u64 => Err(UpdateFault::Apply(ApplyFault::TooMany)),
        Some(_) => Ok(entry_changes(alloc, &old, &new)?),
    }
}

/// How many entries there are once some have gone and others have come; none where there weren't so many, or there would be
/// more than a tree can state.
fn count_after(number: u64, gone: u64, come: u64) -> Option<u64>
    ensures some { IfSome result (λ after. after + gone ≡ number + come) }
    ensures none { IfNone result ((number < gone) ⊎ (2 ^ 64 ≤ number + come)) }
{
    number.checked_sub(gone)?.checked_add(come)
}
