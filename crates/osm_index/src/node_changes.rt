//! Changing the nodes of a stock.

ghost use Rattle.std.specs.Prelude.{◌≡◌, ◌↔◌, ◌⊎◌, ℕ, List, Err, IfErr, IfOk, OnErr, OnOk, map};
ghost use Rattle.tree_build.specs.Rebuilding.{IsAmong, digests_of, nodes_of};
ghost use Rattle.tree_node.specs.Digests.{digest as digest_word};
ghost use Rattle.tree_node.specs.Outcomes.{Clash, GrownByAll};
ghost use Rattle.tree_node.specs.Shelves.{SameNodes};
ghost use Rattle.tree_node.specs.Stocks.{HasNode};
ghost use Rattle.osm_index.specs.internal.NodeChanges.{fault_of_put};

use crate::apply_fault::ApplyFault;
use std::alloc::{AllocError, Global};
use tree_node::{Digest, NewNode, PutFault, Stock};

/// The digests of nodes, in their order.
pub(crate) fn digests_of(alloc: Global, nodes: &[NewNode]) -> Result<Vec<Digest>, AllocError>
    ensures { IfOk result (λ digests. digests.items ≡ map (λ node. node.digest) nodes.now) }
{
    let mut digests = Vec::with_capacity(alloc, nodes.len())?;
    for node in nodes {
        digests.push(node.digest)?;
    }
    Ok(digests)
}

/// Puts nodes, none of which is there, and which have these digests. Where one is refused the stock has the nodes
/// that it had before.
pub(crate) fn put_nodes(
    stock: &mut Stock,
    nodes: Vec<NewNode>,
    digests: &[Digest],
) -> Result<(), ApplyFault>
    requires same { digests.now ≡ map (λ node. node.digest) nodes.items }
    requires new { (bytes : List ℕ) → IsAmong (nodes_of nodes.items) bytes
        → ¬ HasNode stock.old bytes }
    ensures put { OnOk result (GrownByAll (HasNode stock.old) (HasNode stock.new) (IsAmong (nodes_of nodes.items))) }
    ensures unchanged { OnErr result (SameNodes (HasNode stock.old) (HasNode stock.new)) }
    ensures clash { result ≡ Err ApplyFault.Clash
        → Clash (λ bytes. HasNode stock.old bytes
        ⊎ IsAmong (nodes_of nodes.items) bytes) (IsAmong (nodes_of nodes.items)) }
    ensures fault { IfErr result (λ fault. (fault ≡ ApplyFault.Clash)
        ⊎ (fault ≡ ApplyFault.Memory)) }
{
    let mut number = 0;
    for node in nodes {
        if let Err(fault) = stock.put_new(node) {
            remove_nodes(stock, &digests[..number]);
            return Err(fault_of(fault));
        }
        number += 1;
    }
    Ok(())
}

/// Why the changes are refused where a node is.
fn fault_of(fault: PutFault) -> ApplyFault
    ensures { result ≡ fault_of_put fault }
{
    match fault {
        PutFault::Clash => ApplyFault::Clash,
        PutFault::Memory => ApplyFault::Memory,
    }
}

/// Takes away the nodes with these digests.
pub(crate) fn remove_nodes(stock: &mut Stock, digests: &[Digest])
    ensures { (bytes : List ℕ)
        → HasNode stock.new bytes ↔ (HasNode stock.old bytes
        × ¬ IsAmong (digests_of digests.now) (digest_word bytes)) }
{
    for digest in digests {
        stock.remove(digest);
    }
}
