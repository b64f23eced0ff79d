//! All objects of a set, read back from the object tree.

ghost use Rattle.std.specs.Prelude.{◌≡◌, ℕ, List, IfErr, IfOk};
ghost use Rattle.osm_model.specs.CanonicalLine.{canonical_line};
ghost use Rattle.osm_model.specs.Elements.{Element};
ghost use Rattle.osm_model.specs.Limits.{IsElement};
ghost use Rattle.tree_build.specs.StrangeShelves.{HasNoTwin, IsRefusedFor};
ghost use Rattle.tree_build.specs.declared.rebuild_fault.RebuildFault.TheVariants.{Memory, NoTree};
ghost use Rattle.tree_node.specs.NodeRefs.{bindings_of};
ghost use Rattle.tree_node.specs.Shelves.{Stays};
ghost use Rattle.tree_node.specs.declared.tree.Tree.TheVariants.{Objects};
ghost use Rattle.osm_keys.specs.Publications.{Publication, tree_in};
ghost use Rattle.osm_index.specs.internal.HeldTrees.{AreObjectEntries, HoldsTree};

use crate::held_tree::{all_keys, entries_in};
use opl_codec::{Change, OplCause, read_line};
use osm_model::{Object, ObjectSet};
use std::alloc::Global;
use tree_build::RebuildFault;
use tree_node::{Digest, Shelf, Tree};
use tree_walk::Item;

/// All objects of the set, read from the object tree under this top. Linear in the lines, beside the sorting, which
/// finds them sorted.
pub(crate) fn all_objects<'a, S: Shelf<'a>>(
    alloc: Global,
    shelf: &mut S,
    top: &Digest,
) -> Result<ObjectSet, RebuildFault>
    ensures stays { Stays S.is_fixed (S.holds shelf.old) (S.holds shelf.new) }
    ensures objects { (p : Publication)
        → HoldsTree p Objects top.now.0 (HasNoTwin (S.used shelf.new))
        → IfOk result (λ set. set ≡ p.objects) }
    ensures told { (p : Publication)
        → HoldsTree p Objects top.now.0 (HasNoTwin (S.used shelf.new))
        → IfErr result (IsRefusedFor (tree_in p Objects) (S.holds shelf.new)) }
{
    let entries = entries_in(alloc, shelf, Tree::Objects, top, &all_keys())?;
    let objects = read_objects(alloc, &entries)?;
    match ObjectSet::from_objects(objects) {
        Ok(set) => Ok(set),
        Err(_) => Err(RebuildFault::NoTree),
    }
}

/// The objects of these entries, in their order.
fn read_objects(alloc: Global, entries: &[Item<'_>]) -> Result<Vec<Object>, RebuildFault>
    ensures read { (objects : List Element) → AreObjectEntries objects (bindings_of entries.now)
        → IfOk result (λ found. found.items ≡ objects) }
    ensures told { (objects : List Element) → AreObjectEntries objects (bindings_of entries.now)
        → IfErr result (λ fault. fault ≡ Memory) }
{
    let mut objects = Vec::new(alloc);
    for entry in entries {
        objects.push(read_object(alloc, entry.value)?)?;
    }
    Ok(objects)
}

/// The object whose canonical line this is.
pub(crate) fn read_object(alloc: Global, line: &[u8]) -> Result<Object, RebuildFault>
    ensures read { (o : Element) → IsElement o → line.now ≡ canonical_line o
        → IfOk result (λ object. object ≡ o) }
    ensures told { (o : Element) → IsElement o → line.now ≡ canonical_line o
        → IfErr result (λ fault. fault ≡ Memory) }
{
    match read_line(alloc, line) {
        Ok(Some(Change::Put(object))) => Ok(object),
        Ok(Some(Change::Delete(_))) => Err(RebuildFault::NoTree),
        Ok(None) => Err(RebuildFault::NoTree),
        Err(fault) => Err(fault_of(fault.cause)),
    }
}

/// What refuses a tree whose line isn't read.
fn fault_of(cause: OplCause) -> RebuildFault
    ensures memory { cause ≡ OplCause.Memory → result ≡ Memory }
    ensures other { ¬ (cause ≡ OplCause.Memory) → result ≡ NoTree }
{
    match cause {
        OplCause::Memory => RebuildFault::Memory,
        _ => RebuildFault::NoTree,
    }
}
