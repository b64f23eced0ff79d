//! The plan of the next publication.

ghost use Rattle.std.specs.Prelude.{◌≡◌, ℕ, IfErr, IfOk, List};
ghost use Rattle.osm_keys.specs.Publications.{Publication};
ghost use Rattle.pack_update.specs.Adding.{IsRootOf};
ghost use Rattle.pack_update.specs.internal.Updating.{AreAllBytes, IsAlone, IsEarlyReason, IsPlannedFor, IsUnreadOr, fault_of_plan};

use crate::fault::AddFault;
use crate::under::{fetch_manifest, not_given};
use bumpalo::Bump;
use node_pack::{PackSource, Place, ReadAt};
use opl_codec::Change;
use osm_index::{UpdateFault, UpdatePlan};
use osm_keys::Manifest;
use outside_shelf::{OutsideShelf, Refused};
use std::alloc::Global;
use tree_node::Digest;

/// How changes turn a publication into the next one, and the manifest of the publication.
#[derive(Drop)]
pub(crate) struct Planned {
    pub(crate) manifest: Manifest,
    pub(crate) plan: UpdatePlan,
}

/// Plans what changes make of the publication with this root, whose manifest stands at this place of the file.
pub(crate) fn plan_changes<F: ReadAt + Drop>(
    alloc: Global,
    file: F,
    root: &Digest,
    manifest: Place,
    changes: &[Change],
) -> Result<Planned, AddFault>
    // Unless one of these bytes, which it has read, and a different node have one digest:
    ensures under { (seen : List (List ℕ)) × AreAllBytes seen
        × ((p : Publication) → IsRootOf p root.now.0 → IsAlone p seen
        → IfOk result (IsPlannedFor p root.now.0 changes.now)
        × IfErr result (IsEarlyReason p changes.now)) }
    ensures unread { IfErr result (IsUnreadOr root.now.0) }
{
    let arena = Bump::new(alloc);
    let source = PackSource::open_at(alloc, file, *root, manifest)?;
    let mut shelf = OutsideShelf::new(alloc, &arena, source, None);
    let manifest = fetch_manifest(&mut shelf, root)?;
    match UpdatePlan::new(alloc, &mut shelf, &manifest, changes) {
        Ok(plan) => Ok(Planned { manifest, plan }),
        Err(fault) => Err(plan_fault(fault, shelf.refused())),
    }
}

/// What is told of a plan that is refused, beside the reason why the shelf gave no node.
fn plan_fault(fault: UpdateFault, reason: Option<Refused>) -> AddFault
    ensures { result ≡ fault_of_plan fault reason }
{
    match fault {
        UpdateFault::Apply(fault) => AddFault::Apply(fault),
        UpdateFault::Missing => not_given(reason),
        UpdateFault::NoTree => AddFault::NoTree,
    }
}
