//! The objects of some names, read from the object tree.

ghost use Rattle.std.specs.List.{filter_map};
ghost use Rattle.std.specs.Prelude.{◌≡◌, ◌∷◌, ◌++◌, [], ℕ, List, IfErr, IfOk, OnOk};
ghost use Rattle.osm_model.specs.Sets.{object_at};
ghost use Rattle.tree_build.specs.StrangeShelves.{HasNoTwin, IsRefusedFor};
ghost use Rattle.tree_node.specs.Shelves.{Stays};
ghost use Rattle.tree_node.specs.declared.tree.Tree.TheVariants.{Objects};
ghost use Rattle.osm_index.specs.Applying.{AreApart, names_of};
ghost use Rattle.osm_keys.specs.Publications.{Publication, tree_in};
ghost use Rattle.osm_index.specs.internal.HeldTrees.{AreNamed, HoldsTree};

use crate::all_objects::read_object;
use crate::change_refusals::name_of;
use crate::held_tree::entries_in;
use opl_codec::Change;
use osm_keys::reference_key;
use osm_model::{Object, ObjectSet, Ref};
use std::alloc::Global;
use tree_build::RebuildFault;
use tree_node::{Digest, Shelf, Tree};
use tree_walk::KeyRange;

/// The objects of the set that these changes name, read from the object tree under this top. Each takes one walk from
/// the top to its leaf, and the reading of its line.
pub(crate) fn named_objects<'a, S: Shelf<'a>>(
    alloc: Global,
    shelf: &mut S,
    changes: &[Change],
    top: &Digest,
) -> Result<ObjectSet, RebuildFault>
    requires { AreApart changes.now }
    ensures stays { Stays S.is_fixed (S.holds shelf.old) (S.holds shelf.new) }
    ensures grows { (bytes : List ℕ) → S.used shelf.old bytes → S.used shelf.new bytes }
    ensures named { (p : Publication)
        → HoldsTree p Objects top.now.0 (HasNoTwin (S.used shelf.new))
        → IfOk result (AreNamed p.objects (names_of changes.now)) }
    ensures told { (p : Publication)
        → HoldsTree p Objects top.now.0 (HasNoTwin (S.used shelf.new))
        → IfErr result (IsRefusedFor (tree_in p Objects) (S.holds shelf.new)) }
{
    let objects = list_named(alloc, shelf, changes, top)?;
    match ObjectSet::from_objects(objects) {
        Ok(set) => Ok(set),
        // No two changes name one object, so this is no set's tree.
        Err(_) => Err(RebuildFault::NoTree),
    }
}

/// These objects, in the order of the changes.
fn list_named<'a, S: Shelf<'a>>(
    alloc: Global,
    shelf: &mut S,
    changes: &[Change],
    top: &Digest,
) -> Result<Vec<Object>, RebuildFault>
    ensures stays { Stays S.is_fixed (S.holds shelf.old) (S.holds shelf.new) }
    ensures grows { (bytes : List ℕ) → S.used shelf.old bytes → S.used shelf.new bytes }
    ensures listed { (p : Publication)
        → HoldsTree p Objects top.now.0 (HasNoTwin (S.used shelf.new))
        → IfOk result
        (λ objects. objects.items ≡ filter_map (object_at p.objects) (names_of changes.now)) }
    ensures told { (p : Publication)
        → HoldsTree p Objects top.now.0 (HasNoTwin (S.used shelf.new))
        → IfErr result (IsRefusedFor (tree_in p Objects) (S.holds shelf.new)) }
{
    let mut objects = Vec::new(alloc);
    for change in changes {
        push_named(alloc, shelf, top, name_of(change), &mut objects)?;
    }
    Ok(objects)
}

/// Puts the object of this name, if it is in the set, after these.
fn push_named<'a, S: Shelf<'a>>(
    alloc: Global,
    shelf: &mut S,
    top: &Digest,
    name: Ref,
    objects: &mut Vec<Object>,
) -> Result<(), RebuildFault>
    ensures stays { Stays S.is_fixed (S.holds shelf.old) (S.holds shelf.new) }
    ensures grows { (bytes : List ℕ) → S.used shelf.old bytes → S.used shelf.new bytes }
    ensures pushed { (p : Publication)
        → HoldsTree p Objects top.now.0 (HasNoTwin (S.used shelf.new))
        → OnOk result (objects.new.items ≡ objects.old.items
        ++ filter_map (object_at p.objects) (name ∷ [])) }
    ensures told { (p : Publication)
        → HoldsTree p Objects top.now.0 (HasNoTwin (S.used shelf.new))
        → IfErr result (IsRefusedFor (tree_in p Objects) (S.holds shelf.new)) }
{
    if let Some(object) = named_object(alloc, shelf, top, name)? {
        objects.push(object)?;
    }
    Ok(())
}

/// The object of this name, if it is in the set.
fn named_object<'a, S: Shelf<'a>>(
    alloc: Global,
    shelf: &mut S,
    top: &Digest,
    name: Ref,
) -> Result<Option<Object>, RebuildFault>
    ensures stays { Stays S.is_fixed (S.holds shelf.old) (S.holds shelf.new) }
    ensures grows { (bytes : List ℕ) → S.used shelf.old bytes → S.used shelf.new bytes }
    ensures found { (p : Publication)
        → HoldsTree p Objects top.now.0 (HasNoTwin (S.used shelf.new))
        → IfOk result (λ found. found ≡ object_at p.objects name) }
    ensures told { (p : Publication)
        → HoldsTree p Objects top.now.0 (HasNoTwin (S.used shelf.new))
        → IfErr result (IsRefusedFor (tree_in p Objects) (S.holds shelf.new)) }
{
    let key = reference_key(name);
    let keys = KeyRange {
        lo: &key,
        hi: &key,
        under: false,
    };
    let found = entries_in(alloc, shelf, Tree::Objects, top, &keys)?;
    match found.first() {
        None => Ok(None),
        Some(item) => Ok(Some(read_object(alloc, item.value)?)),
    }
}
