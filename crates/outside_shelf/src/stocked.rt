//! A shelf over a stock, and a source for what the stock hasn't.

ghost use Rattle.std.specs.Prelude.{◌≡◌, ℕ, List, Err, IfErr, IfOk, None, OnErr, OnOk, false, length, min, true};
ghost use Rattle.tree_node.specs.Digests.{digest as digest_word};
ghost use Rattle.tree_node.specs.Fetches.{GivesNode};
ghost use Rattle.tree_node.specs.Nodes.{AreBytes};
ghost use Rattle.tree_node.specs.Parts.{HaveNode, HaveRisingDigests};
ghost use Rattle.tree_node.specs.Recorders.{RecorderHolds};
ghost use Rattle.tree_node.specs.Shelves.{GrownBy, HasNone, IsEmptySet, SameNodes, Stays};
ghost use Rattle.outside_shelf.specs.Copies.{HaveCopy, HaveRisingKeys};
ghost use Rattle.outside_shelf.specs.Shelves.{CostsFor, HasBrought, KeepsBound, Spends, last_read, left_of, most_of, total_brought};

use crate::copies::copies;
use crate::node_stock::NodeStock;
use crate::outside::OutsideShelf;
use crate::refused::Refused;
use crate::source::NodeSource;
use bumpalo::Bump;
use std::alloc::{AllocError, Global};
use tree_node::{Digest, Fetched, NewNode, NodeRef, Part, Recorder, Shelf, ShelfFault};

/// A shelf over the nodes of a stock, which were digested before, and over a source for those that the stock hasn't. The source
/// is never asked for a node of the stock. What it brings lies in an arena, as in an [`OutsideShelf`]; so it can be kept in the
/// stock for later shelves once this one is let go ([`StockedShelf::brought`]).
#[derive(Drop)]
pub struct StockedShelf<'a, N: NodeSource + Drop> {
    recorder: Recorder<'a>,
    outside: OutsideShelf<'a, N>,
    refused: Option<Refused>,
    ghost apart: { (node : List ℕ) → HasBrought outside node
        → HasNone (RecorderHolds recorder) (digest_word node) },
    ghost stocked: { (node : List ℕ) → RecorderHolds recorder node → AreBytes node },
}

impl<'a, N: NodeSource + Drop> StockedShelf<'a, N> {
    ghost use Rattle.outside_shelf.specs.NodeStocks.{HasKept};
    ghost use Rattle.outside_shelf.specs.StockedShelves.{HasStocked, StockedHolds, StockedUsed, outside_of, reason_in};
    ghost use Rattle.outside_shelf.specs.StockedShelves.{StockedTells};

    /// A shelf over this stock and this source, no node of which is used yet. Where it is given a bound, at most this many
    /// bytes are read from the source, as by [`OutsideShelf::new`]; nodes of the stock don't count. It takes no memory yet; what
    /// it needs later comes from `alloc`, and the nodes that the source brings lie in the arena.
    pub fn new(
        alloc: Global,
        stock: &'a NodeStock,
        arena: &'a Bump,
        source: N,
        most: Option<u64>,
    ) -> StockedShelf<'a, N>
        // It holds just the nodes of the stock, and nothing is used.
        ensures holds { SameNodes (HasKept stock.now) (StockedHolds result) }
        ensures stocked { SameNodes (HasKept stock.now) (HasStocked result) }
        ensures unused { IsEmptySet (StockedUsed result) }
        // All of the bound is left, and no reason is told.
        ensures most { most_of (outside_of result) ≡ most }
        ensures left { left_of (outside_of result) ≡ most }
        ensures reason { reason_in result ≡ None }
    {
        StockedShelf {
            recorder: stock.shelf(alloc),
            outside: OutsideShelf::new(alloc, arena, source, most),
            refused: None,
        }
    }

    /// Why the last node that was asked for wasn't given; none where it was.
    pub fn refused(&self) -> Option<Refused>
        ensures { result ≡ reason_in self.now }
    {
        self.refused
    }

    /// How many bytes may yet be read from the source; none where there is no bound.
    pub fn left(&self) -> Option<u64>
        ensures { result ≡ left_of (outside_of self.now) }
    {
        self.outside.left()
    }

    /// How many bytes the nodes that the source brought have together, or `usize::MAX` where they are more. It is linear in
    /// their number.
    pub fn brought_len(&self) -> usize
        ensures { result ≡ min (total_brought (outside_of self.now)) 0xffff_ffff_ffff_ffff }
    {
        self.outside.brought_len()
    }

    /// Copies of the nodes that the source brought, each once, by rising digest, in memory from `alloc`. No digest is computed
    /// again. They outlive the arena and the stock's loan, so that they can be put into the stock. It sorts them, so it takes
    /// n log n time for n nodes beside the time for their bytes.
    pub fn brought(&self, alloc: Global) -> Result<Vec<NewNode>, AllocError>
        ensures brought { IfOk result (λ nodes.
            SameNodes (HasBrought (outside_of self.now)) (HaveCopy nodes.items)) }
        ensures rising { IfOk result (λ nodes. HaveRisingKeys nodes.items) }
        // No node of the stock has the digest of one of them.
        ensures apart { IfOk result (λ nodes. (node : List ℕ) → HaveCopy nodes.items node
            → HasNone (HasStocked self.now) (digest_word node)) }
    {
        let parts = self.outside.parts(alloc)?;
        copies(alloc, parts.as_slice())
    }

    /// The nodes that were used, each once, by rising digest: those that were given from the stock, and those that the source
    /// brought. They are listed in memory from `alloc`.
    pub(crate) fn list_used(&self, alloc: Global) -> Result<Vec<Part<'a>>, AllocError>
        ensures rising { IfOk result (λ parts. HaveRisingDigests parts.items) }
        ensures used { IfOk result (λ parts.
            SameNodes (StockedUsed self.now) (HaveNode parts.items)) }
    {
        let mut parts = self.outside.parts(alloc)?;
        let given = self.recorder.parts()?;
        parts.extend_from_slice(given.as_slice())?;
        parts.sort_unstable_by_key(|part| part.digest());
        Ok(parts)
    }

    /// The node with this digest, which the stock hasn't, from the source.
    fn bring(&mut self, key: &Digest) -> Result<&'a [u8], ShelfFault>
        requires { HasNone (HasStocked self.old) key.now.0 }
        ensures given { IfOk result (λ node.
            HasBrought (outside_of self.new) node.now × (digest_word node.now ≡ key.now.0)) }
        ensures grown { IfOk result (λ node.
            GrownBy (HasBrought (outside_of self.old)) (HasBrought (outside_of self.new)) node.now) }
        ensures unchanged { OnErr result
            (SameNodes (HasBrought (outside_of self.old)) (HasBrought (outside_of self.new))) }
        ensures missing { result ≡ Err ShelfFault.Missing
            → HasNone (HasBrought (outside_of self.new)) key.now.0 }
        ensures told { IfErr result (StockedTells self.old self.new key.now) }
        ensures reset { OnOk result (reason_in self.new ≡ None) }
        ensures costs { IfOk result
            (λ node. CostsFor (outside_of self.old) (outside_of self.new) node.now) }
        ensures spent { OnErr result (Spends (outside_of self.old) (outside_of self.new)
            (length (last_read (outside_of self.new)))) }
        ensures most { most_of (outside_of self.new) ≡ most_of (outside_of self.old) }
        ensures bound { KeepsBound (outside_of self.new) }
        ensures recorder { self.new.recorder ≡ self.old.recorder }
    {
        let brought = self.outside.fetch(key);
        self.refused = self.outside.refused();
        brought
    }
}

impl<'a, N: NodeSource + Drop> Shelf<'a> for StockedShelf<'a, N> {
    ghost use Rattle.tree_node.specs.internal.RecorderLaws.{given_held, stands_once};
    ghost use Rattle.tree_node.specs.Keys.{lent_at, owned_at};
    ghost use Rattle.tree_node.specs.Recorders.{RecorderUsed};
    ghost use Rattle.outside_shelf.specs.Brought.{brought_at};
    ghost use Rattle.outside_shelf.specs.StockedShelves.{HasStocked, IsUnasked, StockedCosts, StockedHolds, StockedSpends, StockedTells, StockedUsed, outside_of, reason_in};
    ghost use Rattle.outside_shelf.specs.internal.StockedLaws.{free_together, held_together};

    ghost holds = { λ shelf. StockedHolds shelf };

    ghost is_fixed = { false };

    ghost used = { λ shelf. StockedUsed shelf };

    ghost takes_memory = { true };

    ghost clash_free = { λ shelf. free_together (HasStocked shelf) (HasBrought (outside_of shelf))
        (stands_once (owned_at shelf.recorder.stock.now.nodes))
        (stands_once (brought_at shelf.outside.brought)) shelf.apart };

    ghost used_held = { λ shelf. held_together (RecorderUsed shelf.recorder) (HasStocked shelf) (HasBrought (outside_of shelf))
        (given_held (owned_at shelf.recorder.stock.now.nodes)
        (lent_at shelf.recorder.given) shelf.recorder.own) };

    /// It asks the source only for a node that the stock hasn't, and that wasn't brought before.
    fn fetch(&mut self, key: &Digest) -> Result<&'a [u8], ShelfFault>
        ensures given { IfOk result (λ node.
            StockedHolds self.new node.now × (digest_word node.now ≡ key.now.0)) }
        ensures grown { IfOk result
            (λ node. GrownBy (StockedUsed self.old) (StockedUsed self.new) node.now) }
        ensures grows { (x : List ℕ) → StockedUsed self.old x → StockedUsed self.new x }
        ensures unchanged { OnErr result (SameNodes (StockedUsed self.old) (StockedUsed self.new)) }
        ensures stays { Stays false (StockedHolds self.old) (StockedHolds self.new) }
        ensures missing { result ≡ Err ShelfFault.Missing
            → HasNone (StockedHolds self.new) key.now.0 }
        ensures none { false ≡ true → HasNone (StockedHolds self.new) key.now.0
            → result ≡ Err ShelfFault.Missing }
        ensures memory { result ≡ Err ShelfFault.Memory → true ≡ true }
        // The stock stays as it is, and the source isn't asked for its nodes.
        ensures stocked { SameNodes (HasStocked self.old) (HasStocked self.new) }
        ensures unasked { (node : List ℕ) → HasStocked self.old node → digest_word node ≡ key.now.0
            → IsUnasked self.old self.new }
        // Why it was refused is kept until the next node is asked for.
        ensures told { IfErr result (StockedTells self.old self.new key.now) }
        ensures reset { OnOk result (reason_in self.new ≡ None) }
        // What the source gave counts, and nothing is read for a node of the stock or one that was brought before.
        ensures costs { IfOk result (λ node. StockedCosts self.old self.new node.now) }
        ensures spent { OnErr result (StockedSpends self.old self.new key.now) }
        // No more bytes are brought than may be read.
        ensures most { most_of (outside_of self.new) ≡ most_of (outside_of self.old) }
        ensures bound { KeepsBound (outside_of self.new) }
    {
        match self.recorder.fetch(key) {
            Ok(node) => {
                self.refused = None;
                Ok(node)
            }
            Err(ShelfFault::Memory) => {
                self.refused = Some(Refused::Memory);
                Err(ShelfFault::Memory)
            }
            Err(ShelfFault::Missing) => self.bring(key),
        }
    }

    /// As `fetch`. A node of the stock that was read before isn't read again; one that was brought is read each time.
    fn fetch_node(&mut self, key: &Digest) -> Result<Fetched<'a>, ShelfFault>
        ensures given { IfOk result (GivesNode (record {
          held = StockedHolds self.new;
          before = StockedUsed self.old;
          after = StockedUsed self.new;
        }) key.now.0) }
        ensures grows { (x : List ℕ) → StockedUsed self.old x → StockedUsed self.new x }
        ensures unchanged { OnErr result (SameNodes (StockedUsed self.old) (StockedUsed self.new)) }
        ensures stays { Stays false (StockedHolds self.old) (StockedHolds self.new) }
        ensures missing { result ≡ Err ShelfFault.Missing
            → HasNone (StockedHolds self.new) key.now.0 }
        ensures none { false ≡ true → HasNone (StockedHolds self.new) key.now.0
            → result ≡ Err ShelfFault.Missing }
        ensures memory { result ≡ Err ShelfFault.Memory → true ≡ true }
        // The stock stays as it is, and the source isn't asked for its nodes.
        ensures stocked { SameNodes (HasStocked self.old) (HasStocked self.new) }
        ensures unasked { (node : List ℕ) → HasStocked self.old node → digest_word node ≡ key.now.0
            → IsUnasked self.old self.new }
        // Why it was refused is kept until the next node is asked for.
        ensures told { IfErr result (StockedTells self.old self.new key.now) }
        ensures reset { OnOk result (reason_in self.new ≡ None) }
        // What the source gave counts, and nothing is read for a node of the stock or one that was brought before.
        ensures costs { IfOk result (λ node. StockedCosts self.old self.new node.bytes.now) }
        ensures spent { OnErr result (StockedSpends self.old self.new key.now) }
        // No more bytes are brought than may be read.
        ensures most { most_of (outside_of self.new) ≡ most_of (outside_of self.old) }
        ensures bound { KeepsBound (outside_of self.new) }
    {
        match self.recorder.fetch_node(key) {
            Ok(node) => {
                self.refused = None;
                Ok(node)
            }
            Err(ShelfFault::Memory) => {
                self.refused = Some(Refused::Memory);
                Err(ShelfFault::Memory)
            }
            Err(ShelfFault::Missing) => match self.bring(key) {
                Ok(bytes) => Ok(Fetched {
                    bytes,
                    read: NodeRef::read(bytes),
                }),
                Err(fault) => Err(fault),
            },
        }
    }

    /// The source hears the hint. Nodes that the stock has may be among what it leads to.
    fn announce(&mut self, top: &Digest, lo: &[u8], hi: &[u8])
        ensures stays { Stays false (StockedHolds self.old) (StockedHolds self.new) }
        ensures used { SameNodes (StockedUsed self.old) (StockedUsed self.new) }
        ensures stocked { SameNodes (HasStocked self.old) (HasStocked self.new) }
        ensures reason { reason_in self.new ≡ reason_in self.old }
        ensures left { left_of (outside_of self.new) ≡ left_of (outside_of self.old) }
        ensures most { most_of (outside_of self.new) ≡ most_of (outside_of self.old) }
    {
        self.outside.announce(top, lo, hi);
    }
}
