//! The nodes of a publisher, owned.

ghost use Rattle.std.specs.Option.{ForSome, option_map};
ghost use Rattle.std.specs.Prelude.{◌≡◌, ◌≢◌, ◌↔◌, ℕ, List, IfOk, IsOk, OnOk, OnErr};
ghost use Rattle.tree_node.specs.Digests.{digest as digest_word};
ghost use Rattle.tree_node.specs.Keys.{owned_at};
ghost use Rattle.tree_node.specs.Shelves.{GrownBy, IsEmptySet, SameNodes};

use crate::digest::Digest;
use crate::new_node::NewNode;
use crate::recorder::Recorder;
use std::alloc::Global;
use std::collections::HashMap;
use thiserror::Error;

/// Owned nodes, found by their digests in constant time on average. The bytes of each are held once.
#[derive(Drop)]
pub struct Stock {
    nodes: HashMap<Digest, Vec<u8>>,
    ghost own: { (key : _) → ForSome (owned_at nodes key) (λ node. digest_word node ≡ key.0) },
}

/// Why a node was not put into a stock.
#[derive(Clone, Copy, Debug, PartialEq, Eq, Error)]
pub enum PutFault {
    /// N6: another node has this digest.
    #[error("N6")]
    Clash,
    /// Memory to hold the node was refused.
    #[error("no memory")]
    Memory,
}

impl Stock {
    ghost use Rattle.tree_node.specs.Recorders.{RecorderHolds, RecorderUsed};
    ghost use Rattle.tree_node.specs.Stocks.{HasNode};

    /// A stock without nodes. It takes no memory yet; what it holds later comes from `alloc`.
    pub fn new(alloc: Global) -> Stock
        ensures { IsEmptySet (HasNode result) }
    {
        Stock {
            nodes: HashMap::new(alloc),
        }
    }

    /// Adds this node, and gives its digest. A node that is there already stays, once, and isn't
    /// refused. After a refusal the stock is as before, and the bytes are dropped: `Clash` (N6)
    /// comes exactly where another node has the digest, and `Memory` only for a new node.
    pub fn put(&mut self, bytes: Vec<u8>) -> Result<Digest, PutFault>
        ensures key { IfOk result (λ key. key.0 ≡ digest_word bytes.items) }
        ensures added { OnOk result (GrownBy (HasNode self.old) (HasNode self.new) bytes.items) }
        ensures unchanged { OnErr result (SameNodes (HasNode self.old) (HasNode self.new)) }
        ensures clash { result ≡ Err PutFault.Clash
            → (x : List ℕ) × HasNode self.old x × (x ≢ bytes.items)
            × (digest_word x ≡ digest_word bytes.items) }
        ensures there { HasNode self.old bytes.items → IsOk result }
        ensures clashes { (x : List ℕ) → HasNode self.old x → x ≢ bytes.items
            → digest_word x ≡ digest_word bytes.items → result ≡ Err PutFault.Clash }
    {
        self.put_new(NewNode::new(bytes))
    }

    /// Adds a node that was digested before: as `put`, without computing the digest again.
    pub fn put_new(&mut self, node: NewNode) -> Result<Digest, PutFault>
        ensures key { IfOk result (λ key. key.0 ≡ digest_word node.bytes.items) }
        ensures added { OnOk result (GrownBy (HasNode self.old) (HasNode self.new) node.bytes.items) }
        ensures unchanged { OnErr result (SameNodes (HasNode self.old) (HasNode self.new)) }
        ensures clash { result ≡ Err PutFault.Clash
            → (x : List ℕ) × HasNode self.old x × (x ≢ node.bytes.items)
            × (digest_word x ≡ digest_word node.bytes.items) }
        ensures there { HasNode self.old node.bytes.items → IsOk result }
        ensures clashes { (x : List ℕ) → HasNode self.old x → x ≢ node.bytes.items
            → digest_word x ≡ digest_word node.bytes.items → result ≡ Err PutFault.Clash }
    {
        let key = node.digest;
        if let Some(held) = self.nodes.get(&key) {
            if held.as_slice() == node.bytes.as_slice() {
                return Ok(key);
            }
            return Err(PutFault::Clash);
        }
        match self.nodes.insert(key, node.bytes) {
            Ok(_) => Ok(key),
            Err(_) => Err(PutFault::Memory),
        }
    }

    /// Takes away the node with this digest, where it is held, and no other. It takes no memory.
    pub fn remove(&mut self, key: &Digest)
        ensures { (x : List ℕ) → HasNode self.new x ↔ (HasNode self.old x × (digest_word x ≢ key.now.0)) }
    {
        self.nodes.remove(key);
    }

    /// A shelf over these nodes, none of them used. It takes no memory yet; what it remembers later
    /// comes from `alloc`.
    pub fn shelf(&self, alloc: Global) -> Recorder<'_>
        ensures holds { SameNodes (HasNode self.now) (RecorderHolds result) }
        ensures unused { IsEmptySet (RecorderUsed result) }
    {
        Recorder::new(alloc, self)
    }

    /// The node with this digest.
    pub(crate) fn find(&self, key: &Digest) -> Option<&[u8]>
        ensures { option_map (λ x. x.now) result ≡ owned_at self.now.nodes key.now }
    {
        match self.nodes.get(key) {
            Some(node) => Some(node.as_slice()),
            None => None,
        }
    }
}
