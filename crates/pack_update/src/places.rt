//! Where old nodes stand.

ghost use Rattle.std.specs.Prelude.{◌≡◌, ◌<◌, ◌≤◌, ◌-◌, ◌^◌, ℕ, IfErr, IfOk, List, Option, Some, length};
ghost use Rattle.node_pack.specs.Packs.{Kept};
ghost use Rattle.node_pack.specs.Placed.{HasNodesAt};
ghost use Rattle.node_pack.specs.Sources.{IsOver};
ghost use Rattle.node_pack.specs.declared.place.Place.{Place as NodePlace};
ghost use Rattle.pack_update.specs.internal.Updating.{IsOfSource};

use crate::fault::AddFault;
use node_pack::{PackSource, Place, ReadAt};
use outside_shelf::{NodeSource, Refused, SourceFault};
use std::alloc::Global;
use tree_node::Digest;

/// A source over the file that knows where the children of the nodes that go stand. The manifest stands at this place.
///
/// An old child of a new node was the child of a node that goes: below a node that stays nothing changes. So the source knows
/// where the old children of all new nodes stand.
///
/// Refused with `Source` where a node isn't given.
pub(crate) fn known_places<F: ReadAt + Drop>(
    alloc: Global,
    file: F,
    root: &Digest,
    place: Place,
    gone: &[Digest],
) -> Result<PackSource<F>, AddFault>
    // Where the file has nodes at places it knows none but these.
    ensures over { (bytes : List ℕ) (place_of : List ℕ → Option NodePlace) (old : List Kept)
        → F.reads file bytes → HasNodesAt bytes (2 ^ 64 - 1) place_of old
        → place_of root.now.0 ≡ Some place → place.at < 2 ^ 64 - 1
        → IfOk result (λ source. IsOver F.reads place_of source root.now.0 old) }
    ensures told { IfErr result IsOfSource }
{
    let mut source = PackSource::open_at(alloc, file, *root, place)?;
    learn(alloc, &mut source, gone)?;
    Ok(source)
}

/// Reads those of these nodes to which it is led from the root. A node is read once its place is known, so the list is gone
/// through as often as that is so of one more: once a level of the trees at most.
fn learn<F: ReadAt + Drop>(
    alloc: Global,
    source: &mut PackSource<F>,
    gone: &[Digest],
) -> Result<(), AddFault>
    ensures over { (place_of : List ℕ → Option NodePlace) (root : List ℕ) (old : List Kept)
        → IsOver F.reads place_of source.old root old
        → IsOver F.reads place_of source.new root old }
    ensures told { IfErr result IsOfSource }
{
    let mut node = Vec::new(alloc);
    let mut before = gone.len();
    let mut unknown = read_known(alloc, source, gone, &mut node)?;
    while unknown.len() < before {
        before = unknown.len();
        unknown = read_known(alloc, source, unknown.as_slice(), &mut node)?;
    }
    Ok(())
}

/// Reads those of these nodes whose place is known, and gives the digests of the others.
fn read_known<F: ReadAt + Drop>(
    alloc: Global,
    source: &mut PackSource<F>,
    keys: &[Digest],
    node: &mut Vec<u8>,
) -> Result<Vec<Digest>, AddFault>
    ensures over { (place_of : List ℕ → Option NodePlace) (root : List ℕ) (old : List Kept)
        → IsOver F.reads place_of source.old root old
        → IsOver F.reads place_of source.new root old }
    ensures told { IfErr result IsOfSource }
{
    let mut unknown = Vec::new(alloc);
    for key in keys {
        node.clear();
        match source.read_node(key, usize::MAX, node) {
            Ok(()) => {}
            Err(SourceFault::Absent) => {
                if unknown.push(*key).is_err() {
                    return Err(AddFault::Source(Refused::Memory));
                }
            }
            Err(fault) => return Err(AddFault::Source(Refused::from(fault))),
        }
    }
    Ok(unknown)
}
