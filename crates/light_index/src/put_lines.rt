//! Putting lines into a stock.

ghost use Rattle.std.specs.Prelude.{◌≡◌, ◌≢◌, ◌⊎◌, Err, OnOk};
ghost use Rattle.tree_build.specs.Rebuilding.{IsAmong, nodes_of};
ghost use Rattle.tree_node.specs.Outcomes.{Clash, GrownByAll};
ghost use Rattle.tree_node.specs.Stocks.{HasNode};
ghost use Rattle.light_index.specs.internal.LightPutting.{fault_of_put};

use osm_index::IndexFault;
use tree_node::{NewNode, PutFault, Stock};

/// Moves these nodes into the stock. Refused with `Clash` only where one of them has the digest of a different node of
/// the stock or of these, and else only with `Memory`; then some of them may be there.
pub(crate) fn put_lines(stock: &mut Stock, lines: Vec<NewNode>) -> Result<(), IndexFault>
    ensures put { OnOk result
        (GrownByAll (HasNode stock.old) (HasNode stock.new) (IsAmong (nodes_of lines.items))) }
    ensures clash { result ≡ Err IndexFault.Clash
        → Clash (λ bytes. HasNode stock.old bytes
        ⊎ IsAmong (nodes_of lines.items) bytes) (IsAmong (nodes_of lines.items)) }
    ensures few { result ≢ Err IndexFault.TooMany }
{
    for line in lines {
        if let Err(fault) = stock.put_new(line) {
            return Err(fault_of(fault));
        }
    }
    Ok(())
}

/// Why there is no snapshot where a node is refused.
pub(crate) fn fault_of(fault: PutFault) -> IndexFault
    ensures { result ≡ fault_of_put fault }
{
    match fault {
        PutFault::Clash => IndexFault::Clash,
        PutFault::Memory => IndexFault::Memory,
    }
}
