//! What entries of the cell tree say.

ghost use Rattle.std.specs.Int.{w64};
ghost use Rattle.std.specs.Prelude.{FitsSigned, IfNone, IfSome};
ghost use Rattle.osm_model.specs.declared.reference.Ref.{Ref};
ghost use Rattle.tree_node.specs.NodeRefs.{binding_of};
ghost use Rattle.tree_node.specs.declared.tree.Tree.TheVariants.{Cells};
ghost use Rattle.ql_eval.specs.Forms.{Names, SaysPlace};

use osm_keys::{read_cell_key, read_cell_value};
use osm_model::{Coord, Kind, Ref};
use tree_node::Item;

/// A node and where it lies, as an entry of the cell tree says it.
#[derive(Clone, Copy)]
pub(crate) struct CellEntry {
    /// The node.
    pub(crate) name: Ref,
    /// Where it lies.
    pub(crate) place: Coord,
}

/// The node that an entry of the cell tree places, and where.
pub(crate) fn read_cell_entry(item: &Item<'_>) -> Option<CellEntry>
    ensures some { IfSome result (λ node. SaysPlace (binding_of item.now) node.name node.place) }
    // As its type says.
    ensures fits { IfSome result (λ node. FitsSigned w64 node.name.id) }
    ensures none { IfNone result
        ((name : Ref) → FitsSigned w64 name.id → ¬ Names Cells (binding_of item.now) name) }
{
    let found = read_cell_key(item.key)?;
    let place = read_cell_value(item.value)?;
    let name = Ref {
        kind: Kind::Node,
        id: found.id,
    };
    Some(CellEntry { name, place })
}
