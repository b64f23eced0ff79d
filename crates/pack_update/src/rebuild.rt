//! The nodes of the next publication.

ghost use Rattle.std.specs.Prelude.{◌≡◌, IfErr, IfOk, List, ℕ};
ghost use Rattle.opl_codec.specs.declared.change.Change.{Change as SetChange};
ghost use Rattle.tree_node.specs.Shelves.{IsClashFree};
ghost use Rattle.osm_keys.specs.Publications.{IsNodeIn, Publication};
ghost use Rattle.osm_index.specs.internal.Updates.{IsUpdateBy};
ghost use Rattle.pack_update.specs.Adding.{IsRootOf};
ghost use Rattle.pack_update.specs.internal.Updating.{AreAllBytes, IsAlone, IsEarlyReason, IsPlannedFor, IsUnreadOr, fault_of_rebuild};

use crate::fault::AddFault;
use crate::plan::Planned;
use crate::under::{fetch_manifest, not_given};
use bumpalo::Bump;
use node_pack::{PackSource, Place, ReadAt};
use osm_index::{ApplyFault, Update};
use outside_shelf::{OutsideShelf, Refused};
use std::alloc::Global;
use tree_build::RebuildFault;
use tree_node::Digest;

/// Rebuilds the trees of the publication with this root, as planned. Its manifest stands at this place of the file.
pub(crate) fn rebuild_trees<F: ReadAt + Drop>(
    alloc: Global,
    file: F,
    root: &Digest,
    manifest: Place,
    planned: &Planned,
) -> Result<Update, AddFault>
    // Unless one of these bytes, which it has read, and a different node have one digest, or two of its own nodes have:
    ensures under { (seen : List (List ℕ)) × AreAllBytes seen
        × ((p : Publication) (all : List SetChange) → IsRootOf p root.now.0
        → IsAlone p seen → IsClashFree (IsNodeIn p) → IsPlannedFor p root.now.0 all planned.now
        → IfOk result (IsUpdateBy p all) × IfErr result (IsEarlyReason p all)) }
    ensures unread { IfErr result (IsUnreadOr root.now.0) }
{
    let arena = Bump::new(alloc);
    let source = PackSource::open_at(alloc, file, *root, manifest)?;
    let mut shelf = OutsideShelf::new(alloc, &arena, source, None);
    let manifest = fetch_manifest(&mut shelf, root)?;
    match planned.plan.carry_out(alloc, &mut shelf, &manifest, root) {
        Ok(update) => Ok(update),
        Err(fault) => Err(rebuild_fault(fault, shelf.refused())),
    }
}

/// What is told of trees that aren't rebuilt, beside the reason why the shelf gave no node.
fn rebuild_fault(fault: RebuildFault, reason: Option<Refused>) -> AddFault
    ensures { result ≡ fault_of_rebuild fault reason }
{
    match fault {
        RebuildFault::Missing => not_given(reason),
        RebuildFault::NoTree => AddFault::NoTree,
        RebuildFault::Memory => AddFault::Apply(ApplyFault::Memory),
    }
}
