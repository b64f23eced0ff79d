//! Reading the entries of a tree from a shelf.

ghost use Rattle.std.specs.Prelude.{◌≡◌, [], ℕ, List, IfErr, IfOk, length};
ghost use Rattle.tree_build.specs.StrangeShelves.{HasNoTwin, IsRefusedFor, cause_of};
ghost use Rattle.tree_node.specs.NodeRefs.{bindings_of};
ghost use Rattle.tree_node.specs.Shelves.{Stays};
ghost use Rattle.tree_walk.specs.Choices.{AreThose};
ghost use Rattle.tree_walk.specs.Fetches.{cause_of as walk_cause};
ghost use Rattle.tree_walk.specs.Ranges.{IsIn, range_of};
ghost use Rattle.tree_walk.specs.Walks.{IsEntryIn};
ghost use Rattle.osm_keys.specs.Publications.{Publication, tree_in};
ghost use Rattle.osm_keys.specs.Ranges.{under_all};
ghost use Rattle.osm_index.specs.internal.HeldTrees.{HoldsTree};

use std::alloc::Global;
use tree_build::RebuildFault;
use tree_node::{Digest, Shelf, Tree};
use tree_walk::{Item, KeyRange, Tally, WalkFault, count, range};

/// The entries of the tree under this top in a range of keys, in the order of their keys.
pub(crate) fn entries_in<'a, S: Shelf<'a>>(
    alloc: Global,
    shelf: &mut S,
    tree: Tree,
    top: &Digest,
    keys: &KeyRange<'_>,
) -> Result<Vec<Item<'a>>, RebuildFault>
    requires { IsIn (range_of keys.now) keys.now.lo.now }
    ensures stays { Stays S.is_fixed (S.holds shelf.old) (S.holds shelf.new) }
    ensures grows { (bytes : List ℕ) → S.used shelf.old bytes → S.used shelf.new bytes }
    ensures found { (p : Publication)
        → HoldsTree p tree top.now.0 (HasNoTwin (S.used shelf.new))
        → IfOk result
        (λ found. AreThose (IsEntryIn (range_of keys.now)) (p.entries tree) (bindings_of found.items)) }
    ensures told { (p : Publication)
        → HoldsTree p tree top.now.0 (HasNoTwin (S.used shelf.new))
        → IfErr result (IsRefusedFor (tree_in p tree) (S.holds shelf.new)) }
{
    let mut tally = Tally::default();
    match range(alloc, shelf, top, tree, keys, &mut tally) {
        Ok(found) => Ok(found),
        Err(fault) => Err(fault_of(fault)),
    }
}

/// The number of the entries of the tree under this top: read from the nodes on the way from the top to the first leaf.
pub(crate) fn entry_count<'a, S: Shelf<'a>>(
    alloc: Global,
    shelf: &mut S,
    tree: Tree,
    top: &Digest,
) -> Result<u64, RebuildFault>
    ensures stays { Stays S.is_fixed (S.holds shelf.old) (S.holds shelf.new) }
    ensures grows { (bytes : List ℕ) → S.used shelf.old bytes → S.used shelf.new bytes }
    ensures number { (p : Publication)
        → HoldsTree p tree top.now.0 (HasNoTwin (S.used shelf.new))
        → IfOk result (λ number. number ≡ length (p.entries tree)) }
    ensures told { (p : Publication)
        → HoldsTree p tree top.now.0 (HasNoTwin (S.used shelf.new))
        → IfErr result (IsRefusedFor (tree_in p tree) (S.holds shelf.new)) }
{
    let mut tally = Tally::default();
    match count(alloc, shelf, top, tree, &all_keys(), &mut tally) {
        Ok(number) => Ok(number),
        Err(fault) => Err(fault_of(fault)),
    }
}

/// The range of all keys.
pub(crate) fn all_keys() -> KeyRange<'static>
    ensures range { range_of result ≡ under_all [] }
    ensures some { IsIn (range_of result) result.lo.now }
{
    KeyRange {
        lo: &[],
        hi: &[],
        under: true,
    }
}

/// What refuses a walk over a tree.
fn fault_of(fault: WalkFault) -> RebuildFault
    ensures { cause_of result ≡ walk_cause fault }
{
    match fault {
        WalkFault::Missing => RebuildFault::Missing,
        WalkFault::Memory => RebuildFault::Memory,
        WalkFault::Malformed(_) | WalkFault::WrongTreeOrLevel | WalkFault::Disagrees => {
            RebuildFault::NoTree
        }
    }
}
