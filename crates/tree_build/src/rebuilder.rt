//! Rebuilding the tree of a changed list.

ghost use Rattle.std.specs.Prelude.{◌≡◌, ◌+◌, ◌*◌, ℕ, List, IfErr, IfOk, length};
ghost use Rattle.tree_build.specs.Rebuilding.{AreClashFree, GrownByAtMost, HoldsOldTree, IsOldTree, IsRebuilt, changed_entries, changes_of};
ghost use Rattle.tree_build.specs.StrangeShelves.{HasNoTwin, IsRefusedFor};
ghost use Rattle.tree_build.specs.declared.rebuild_fault.RebuildFault.TheVariants.{Memory};
ghost use Rattle.tree_node.specs.Nodes.{Binding};
ghost use Rattle.tree_node.specs.Shelves.{IsClashFree, Stays};
ghost use Rattle.tree_node.specs.Trees.{IsNodeOf, Two, levels};

use crate::change::EntryChange;
use crate::finish::finish;
use crate::levels::change_levels;
use crate::old_node::{level_in, open_old};
use crate::rebuild_fault::RebuildFault;
use crate::rebuilt::Rebuilt;
use std::alloc::Global;
use tree_node::{Digest, Shelf};

/// The tree of the second shape over a changed list, from the nodes of the old tree and the changes (this
/// project's trees, docs/FORMATS.md): the digest of its top, the nodes that it has and the old tree
/// hasn't, and the digests of those that only the old tree has. Nodes are compared by their bytes, so
/// this holds whatever their digests are.
///
/// The digest is that of the old tree's top. The keys of the changes rise, and the changed list has a tree. The changes
/// are borrowed for as long as the bytes that the shelf gives. Without changes it gives the old tree's top, and fetches
/// nothing.
///
/// It fetches the nodes on the paths from the top to the changed keys, and otherwise only nodes that are gone, some of
/// them more than once. Its time grows with the number of changes and of changed nodes, times the number of levels, and
/// not with the size of the tree. It allocates memory for the nodes that change.
///
/// The shelf may be a stranger's. Refused with `Missing` where it doesn't give a node that is needed, with `NoTree` where
/// what it gives is no tree that can be changed so, or the keys of the changes don't rise, and out of memory, of this call
/// or of the shelf. Where the shelf is known to hold the old tree, memory alone refuses it. A refusal tells nothing, and
/// the shelf may have given some nodes; a later call starts anew.
pub fn rebuild<'a, S: Shelf<'a>>(
    alloc: Global,
    shelf: &mut S,
    top: &Digest,
    changes: &'a [EntryChange],
) -> Result<Rebuilt, RebuildFault>
    // What is held stays held, on a fixed shelf just that, and what was used stays used.
    ensures stays { Stays S.is_fixed (S.holds shelf.old) (S.holds shelf.new) }
    ensures grows { (bytes : List ℕ) → S.used shelf.old bytes → S.used shelf.new bytes }
    // It gives the tree of the changed entries: its top, what was added and what is gone. Where the shelf isn't
    // known to hold the old tree, this is so unless a node that it gave, or another one of the old tree, has the digest
    // of a different node of that tree.
    ensures rebuilt { (tree : ℕ) (entries : List Binding)
        → IsOldTree (HasNoTwin (S.used shelf.new)) top.now.0 (changes_of changes.now) tree entries
        → let old = levels Two tree entries in
        let new = levels Two tree (changed_entries entries (changes_of changes.now)) in
        IsClashFree (IsNodeOf old)
        → IfOk result (λ rebuilt. IsRebuilt old new rebuilt) }
    // Beyond the nodes that are gone it reads at most one node a change and level of the old tree.
    ensures used { (tree : ℕ) (entries : List Binding)
        → IsOldTree (HasNoTwin (S.used shelf.new)) top.now.0 (changes_of changes.now) tree entries
        → let old = levels Two tree entries in
        let new = levels Two tree (changed_entries entries (changes_of changes.now)) in
        AreClashFree old new
        → IfOk result (λ rebuilt. GrownByAtMost
        (length rebuilt.gone.items + length changes.now * length old)
        (S.used shelf.old) (S.used shelf.new)) }
    // Over such a tree it is refused for memory, or the shelf doesn't hold a node of it.
    ensures told { (tree : ℕ) (entries : List Binding)
        → IsOldTree (HasNoTwin (S.used shelf.new)) top.now.0 (changes_of changes.now) tree entries
        → IfErr result (IsRefusedFor (levels Two tree entries) (S.holds shelf.new)) }
    // So where the shelf holds the old tree, memory alone refuses it.
    ensures served { HoldsOldTree (S.holds shelf.old) top.now.0 (changes_of changes.now)
        → IfErr result (λ fault. fault ≡ Memory) }
{
    if changes.is_empty() {
        return Ok(Rebuilt {
            top: *top,
            added: Vec::new(alloc),
            gone: Vec::new(alloc),
        });
    }
    let old = open_old(shelf, top)?;
    let tree = old.node.tree();
    let edited = change_levels(alloc, shelf, tree, top, level_in(&old.node), changes)?;
    finish(alloc, shelf, tree, top, edited)
}
