//! What a query brings for later ones.

ghost use Rattle.std.specs.Prelude.{◌≡◌, ◌≤◌, IfErr, IfSome, ℕ, List, None, min};
ghost use Rattle.outside_shelf.specs.Copies.{HaveCopy};
ghost use Rattle.outside_shelf.specs.Shelves.{HasBrought, total_brought};
ghost use Rattle.outside_shelf.specs.StockedShelves.{outside_of};
ghost use Rattle.osm_gate.specs.declared.mirror_fault.MirrorFault.TheVariants.{Device};
ghost use Rattle.pack_mirror.specs.Faults.{fault_of_answer};

use crate::faults::answer_refused;
use osm_gate::MirrorFault;
use outside_proof::OutsideFault;
use outside_shelf::{NodeSource, StockedShelf};
use std::alloc::Global;
use tree_node::NewNode;

/// What a node in a stock counts beside its bytes, and what a place counts that a source knows: an entry of a table with the
/// room that the table has to spare.
const ENTRY_LEN: u64 = 100;

/// Nodes that a query has brought, copied to be kept.
#[derive(Drop)]
pub(crate) struct Gained {
    pub(crate) nodes: Vec<NewNode>,
    /// What they count together.
    pub(crate) len: u64,
}

/// What so many entries of a table count.
pub(crate) fn entries_len(entries: usize) -> u64 {
    ENTRY_LEN.saturating_mul(entries as u64)
}

/// What a shelf has brought for a query that ended so, to be kept: no nodes where memory for their copies is refused. None where
/// all that was kept before is to be dropped too: where the device is at fault, or where the nodes have more bytes than there is
/// room for. Then nothing is copied.
pub(crate) fn copy_brought<T, N: NodeSource + Drop>(
    alloc: Global,
    given: &Result<T, OutsideFault>,
    shelf: &StockedShelf<'_, N>,
    room: u64,
) -> Option<Gained>
    ensures brought { IfSome result (λ gained. (node : List ℕ) → HaveCopy gained.nodes.items node
        → HasBrought (outside_of shelf.now) node) }
    ensures failed { IfErr given.now (λ fault. fault_of_answer fault ≡ Device → result ≡ None) }
    ensures room { IfSome result
        (λ _. min (total_brought (outside_of shelf.now)) 0xffff_ffff_ffff_ffff ≤ room) }
{
    if let Err(fault) = given {
        if answer_refused(*fault) == MirrorFault::Device {
            return None;
        }
    }
    let len = shelf.brought_len() as u64;
    if len > room {
        return None;
    }
    match shelf.brought(alloc) {
        Ok(nodes) => {
            let len = len.saturating_add(entries_len(nodes.len()));
            Some(Gained { nodes, len })
        }
        Err(_) => Some(Gained {
            nodes: Vec::new(alloc),
            len: 0,
        }),
    }
}
