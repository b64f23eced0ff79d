//! Nodes that are kept for later shelves.

ghost use Rattle.std.specs.Prelude.{◌≡◌, ◌≢◌, ℕ, List, Err, IfOk, IsOk, OnErr, OnOk};
ghost use Rattle.tree_node.specs.Digests.{digest as digest_word};
ghost use Rattle.tree_node.specs.Nodes.{AreBytes};
ghost use Rattle.tree_node.specs.Recorders.{RecorderHolds, RecorderUsed};
ghost use Rattle.tree_node.specs.Shelves.{GrownBy, IsEmptySet, SameNodes};
ghost use Rattle.tree_node.specs.Stocks.{HasNode};

use crate::laws::bytes_law;
use std::alloc::Global;
use tree_node::{Digest, NewNode, PutFault, Recorder, Stock};

/// Nodes that were brought for one shelf, and are kept for later ones ([`StockedShelf`](crate::StockedShelf)): a [`Stock`] of
/// byte strings.
#[derive(Drop)]
pub struct NodeStock {
    stock: Stock,
    ghost bytes: { (node : List ℕ) → HasNode stock node → AreBytes node },
}

impl NodeStock {
    ghost use Rattle.outside_shelf.specs.NodeStocks.{HasKept};

    /// A stock without nodes. It takes no memory yet; what it holds later comes from `alloc`.
    pub fn new(alloc: Global) -> NodeStock
        ensures { IsEmptySet (HasKept result) }
    {
        NodeStock {
            stock: Stock::new(alloc),
        }
    }

    /// Adds this node, and gives its digest. A node that is there already stays, once, and isn't refused. After a refusal the
    /// stock is as before: `Clash` (N6) comes exactly where another node has the digest, and `Memory` only for a new node.
    pub fn put(&mut self, node: NewNode) -> Result<Digest, PutFault>
        ensures key { IfOk result (λ key. key.0 ≡ digest_word node.bytes.items) }
        ensures added { OnOk result
            (GrownBy (HasKept self.old) (HasKept self.new) node.bytes.items) }
        ensures unchanged { OnErr result (SameNodes (HasKept self.old) (HasKept self.new)) }
        ensures clash { result ≡ Err PutFault.Clash
            → (x : List ℕ) × HasKept self.old x × (x ≢ node.bytes.items)
            × (digest_word x ≡ digest_word node.bytes.items) }
        ensures there { HasKept self.old node.bytes.items → IsOk result }
        ensures clashes { (x : List ℕ) → HasKept self.old x → x ≢ node.bytes.items
            → digest_word x ≡ digest_word node.bytes.items → result ≡ Err PutFault.Clash }
    {
        bytes_law(node.bytes.as_slice());
        self.stock.put_new(node)
    }

    /// A shelf over these nodes, none of them used. It takes no memory yet.
    pub(crate) fn shelf(&self, alloc: Global) -> Recorder<'_>
        ensures holds { SameNodes (HasKept self.now) (RecorderHolds result) }
        ensures unused { IsEmptySet (RecorderUsed result) }
        ensures bytes { (node : List ℕ) → RecorderHolds result node → AreBytes node }
    {
        self.stock.shelf(alloc)
    }
}
