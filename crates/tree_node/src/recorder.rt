//! A shelf over a stock that knows which nodes were used.

ghost use Rattle.std.specs.Option.{ForSome};
ghost use Rattle.std.specs.Prelude.{◌≡◌, Some, IfOk, IfSome, OnErr, OnOk, true};
ghost use Rattle.tree_node.specs.Digests.{digest as digest_word};
ghost use Rattle.tree_node.specs.Fetches.{ReadsAs};
ghost use Rattle.tree_node.specs.Keys.{lent_at, owned_at};
ghost use Rattle.tree_node.specs.Parts.{HaveNode, HaveRisingDigests};
ghost use Rattle.tree_node.specs.Shelves.{GrownBy, IsEmptySet, SameNodes};

use crate::digest::Digest;
use crate::fetched::Fetched;
use crate::node::NodeRef;
use crate::part::Part;
use crate::recorded_node::RecordedNode;
use crate::shelf::{FixedShelf, Shelf, ShelfFault};
use crate::stock::Stock;
use std::alloc::{AllocError, Global};
use std::collections::HashMap;

/// A shelf over a stock, which keeps the nodes that were used, each beside its digest, and as it was
/// read where it was fetched as a tree's node. It copies no bytes.
#[derive(Drop)]
pub struct Recorder<'a> {
    alloc: Global,
    stock: &'a Stock,
    given: HashMap<Digest, RecordedNode<'a>>,
    ghost own: { (key : _)
        → ForSome (lent_at given key) (λ node. owned_at stock.now.nodes key ≡ Some node) },
}

impl<'a> Recorder<'a> {
    ghost use Rattle.tree_node.specs.Recorders.{RecorderHolds, RecorderUsed};
    ghost use Rattle.tree_node.specs.Stocks.{HasNode};
    ghost use Rattle.tree_node.specs.internal.Pairs.{HaveDistinctDigests};

    /// A shelf over this stock, no node of it used. It takes no memory yet; what it remembers later
    /// comes from `alloc`.
    pub fn new(alloc: Global, stock: &'a Stock) -> Recorder<'a>
        ensures holds { SameNodes (HasNode stock.now) (RecorderHolds result) }
        ensures unused { IsEmptySet (RecorderUsed result) }
    {
        Recorder {
            alloc,
            stock,
            given: HashMap::new(alloc),
        }
    }

    /// The used nodes, each once, by rising digest. No digest is computed again; the recorder stays
    /// as it is. It sorts them, so it takes n log n time for n used nodes.
    pub fn parts(&self) -> Result<Vec<Part<'a>>, AllocError>
        ensures rising { IfOk result (λ parts. HaveRisingDigests parts.items) }
        ensures used { IfOk result (λ parts.
            SameNodes (RecorderUsed self.now) (HaveNode parts.items)) }
    {
        let mut parts = self.used_parts()?;
        parts.sort_unstable_by_key(|part| part.digest());
        Ok(parts)
    }

    /// The used nodes, each once, in no order that means anything.
    fn used_parts(&self) -> Result<Vec<Part<'a>>, AllocError>
        ensures once { IfOk result (λ parts. HaveDistinctDigests parts.items) }
        ensures used { IfOk result (λ parts.
            SameNodes (RecorderUsed self.now) (HaveNode parts.items)) }
    {
        let mut used = Vec::with_capacity(self.alloc, self.given.len())?;
        for (key, given) in &self.given {
            used.push(Part::with_digest(*key, given.bytes))?;
        }
        Ok(used)
    }

    /// The node with this digest, if it was used before.
    fn used_node(&self, key: &Digest) -> Option<&'a [u8]>
        ensures { IfSome result (λ node.
            RecorderUsed self.now node.now × RecorderHolds self.now node.now × (digest_word node.now ≡ key.now.0)) }
    {
        match self.given.get(key) {
            Some(given) => Some(given.bytes),
            None => None,
        }
    }

    /// The node of a tree with this digest, if it was read before.
    fn read_node(&self, key: &Digest) -> Option<Fetched<'a>>
        ensures { IfSome result (λ node.
            RecorderUsed self.now node.bytes.now × RecorderHolds self.now node.bytes.now
            × (digest_word node.bytes.now ≡ key.now.0) × ReadsAs node.bytes.now node.read) }
    {
        match self.given.get(key) {
            Some(given) => given.fetched(),
            None => None,
        }
    }

    /// Remembers a node of the stock as used.
    fn remember(&mut self, key: &Digest, given: RecordedNode<'a>) -> Result<(), ShelfFault>
        requires { owned_at self.old.stock.now.nodes key.now ≡ Some given.bytes.now }
        ensures grown { OnOk result (GrownBy (RecorderUsed self.old) (RecorderUsed self.new) given.entry.bytes.now) }
        ensures unchanged { OnErr result (SameNodes (RecorderUsed self.old) (RecorderUsed self.new)) }
        ensures stock { self.new.stock ≡ self.old.stock }
        ensures memory { OnErr result (result ≡ Err ShelfFault.Memory) }
    {
        match self.given.insert(*key, given) {
            Ok(_) => Ok(()),
            Err(_) => Err(ShelfFault::Memory),
        }
    }
}

impl<'a> Shelf<'a> for Recorder<'a> {
    ghost use Rattle.tree_node.specs.Recorders.{RecorderHolds, RecorderUsed};

    ghost holds = { RecorderHolds };

    ghost used = { RecorderUsed };

    ghost is_fixed = { true };

    ghost takes_memory = { true };

    ghost use Rattle.tree_node.specs.internal.RecorderLaws.{stands_once, given_held};

    ghost clash_free = { λ r. stands_once (owned_at r.stock.now.nodes) };

    ghost used_held = { λ r. given_held (owned_at r.stock.now.nodes) (lent_at r.given) r.own };

    /// It takes memory only for a node that was not used before, and is constant in time on average.
    fn fetch(&mut self, key: &Digest) -> Result<&'a [u8], ShelfFault> {
        // Few of a stock's nodes are used, so they are found sooner.
        if let Some(node) = self.used_node(key) {
            return Ok(node);
        }
        let stock = self.stock;
        match stock.find(key) {
            Some(node) => match self.remember(key, RecordedNode::unread(node)) {
                Ok(()) => Ok(node),
                Err(fault) => Err(fault),
            },
            None => Err(ShelfFault::Missing),
        }
    }

    /// It takes memory only for a node that was not used before. A node of a tree that was read before
    /// isn't read again: then it is constant in time on average, else linear in the bytes.
    fn fetch_node(&mut self, key: &Digest) -> Result<Fetched<'a>, ShelfFault> {
        // Walks ask for the nodes near a top again and again.
        if let Some(node) = self.read_node(key) {
            return Ok(node);
        }
        let stock = self.stock;
        match stock.find(key) {
            Some(bytes) => {
                let read = NodeRef::read(bytes);
                match self.remember(key, RecordedNode::with_read(bytes, &read)) {
                    Ok(()) => Ok(Fetched { bytes, read }),
                    Err(fault) => Err(fault),
                }
            }
            None => Err(ShelfFault::Missing),
        }
    }

    /// It takes no hint.
    fn announce(&mut self, _top: &Digest, _lo: &[u8], _hi: &[u8]) {}
}

impl<'a> FixedShelf<'a> for Recorder<'a> {
    ghost use Rattle.std.specs.Prelude.{refl};

    ghost fixed = { refl };
}
