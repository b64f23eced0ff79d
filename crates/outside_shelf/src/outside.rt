//! A shelf over a source of which nothing is known.

ghost use Rattle.std.specs.Option.{ForSome};
ghost use Rattle.std.specs.Prelude.{◌≡◌, ◌≤◌, ◌<◌, ◌+◌, ◌⊎◌, ◌≢◌, ℕ, List, Err, IfErr, IfOk, IfSome, None, OnErr, OnOk, Some, false, length, min, true};
ghost use Rattle.tree_node.specs.Digests.{digest as digest_word};
ghost use Rattle.tree_node.specs.Fetches.{GivesNode};
ghost use Rattle.tree_node.specs.Nodes.{AreBytes};
ghost use Rattle.tree_node.specs.Parts.{HaveNode, HaveRisingDigests, node_of};
ghost use Rattle.tree_node.specs.Shelves.{GrownBy, HasNone, IsEmptySet, SameNodes, Stays};
ghost use Rattle.outside_shelf.specs.Brought.{HasRoomFor, brought_at, brought_len};
ghost use Rattle.outside_shelf.specs.Reasons.{shelf_fault_of};

use crate::bound::Bound;
use crate::laws::bytes_law;
use crate::refused::Refused;
use crate::source::NodeSource;
use bumpalo::Bump;
use std::alloc::{AllocError, Global};
use std::collections::HashMap;
use tree_node::{Digest, Fetched, NodeRef, Part, Shelf, ShelfFault};

/// A shelf that holds what it has brought so far. Each node came from the source, has the digest that was asked, and lies in
/// an arena from then on, so that it is brought once. Its digest is computed once, in the arena, so bytes that are refused
/// for another digest lie there too.
#[derive(Drop)]
pub struct OutsideShelf<'a, N: NodeSource + Drop> {
    arena: &'a Bump,
    source: N,
    buffer: Vec<u8>,
    brought: HashMap<Digest, Part<'a>>,
    bound: Option<Bound>,
    refused: Option<Refused>,
    ghost own: { (key : _) → ForSome (brought_at brought key) (λ node. digest_word node ≡ key.0) },
    ghost bytes: { (key : _) → ForSome (brought_at brought key) (λ node. AreBytes node) },
    ghost within: { ForSome bound (λ bound. brought_len brought + bound.left ≤ bound.most) },
}

impl<'a, N: NodeSource + Drop> OutsideShelf<'a, N> {
    ghost use Rattle.outside_shelf.specs.Shelves.{CostsFor, HasBrought, KeepsBound, Spends, WasRefusedFor, last_read, left_of, most_of, reason_of, total_brought};
    ghost use Rattle.outside_shelf.specs.declared.refused.Refused.TheVariants.{Memory, Other};

    /// A shelf over this source, which has brought nothing yet. Where it is given a bound it reads at most this many bytes, and
    /// all bytes that the source gives count, also those that are refused. It takes no memory yet; what it needs later comes
    /// from `alloc`, and the nodes lie in the arena.
    pub fn new(alloc: Global, arena: &'a Bump, source: N, most: Option<u64>) -> OutsideShelf<'a, N>
        ensures empty { IsEmptySet (HasBrought result) }
        ensures most { most_of result ≡ most }
        ensures left { left_of result ≡ most }
        ensures reason { reason_of result ≡ None }
    {
        OutsideShelf {
            arena,
            source,
            buffer: Vec::new(alloc),
            brought: HashMap::new(alloc),
            bound: most.map(Bound::new),
            refused: None,
        }
    }

    /// Why the last node that was asked for wasn't given; none where it was.
    pub fn refused(&self) -> Option<Refused>
        ensures { result ≡ reason_of self.now }
    {
        self.refused
    }

    /// How many bytes may yet be read; none where there is no bound.
    pub fn left(&self) -> Option<u64>
        ensures { result ≡ left_of self.now }
    {
        self.bound.map(|bound| bound.left)
    }

    /// The nodes that were brought, each once, by rising digest, in memory from `alloc`. No bytes are copied and no digest is
    /// computed again. It sorts them, so it takes n log n time for n nodes.
    pub fn parts(&self, alloc: Global) -> Result<Vec<Part<'a>>, AllocError>
        ensures rising { IfOk result (λ parts. HaveRisingDigests parts.items) }
        ensures brought { IfOk result (λ parts.
            SameNodes (HasBrought self.now) (HaveNode parts.items)) }
    {
        let mut parts: Vec<Part<'a>> = self.brought.values().copied().collect(alloc)?;
        parts.sort_unstable_by_key(|part| part.digest());
        Ok(parts)
    }

    /// How many bytes the nodes that were brought have together, or `usize::MAX` where they are more. It is linear in their
    /// number.
    pub fn brought_len(&self) -> usize
        ensures { result ≡ min (total_brought self.now) 0xffff_ffff_ffff_ffff }
    {
        let mut total: usize = 0;
        for (_, part) in &self.brought {
            total = total.saturating_add(part.bytes().len());
        }
        total
    }

    /// The node with this digest, from the source where it wasn't brought before.
    fn give(&mut self, key: &Digest) -> Result<&'a [u8], Refused>
        ensures given { IfOk result (λ node.
            HasBrought self.new node.now × (digest_word node.now ≡ key.now.0)) }
        ensures grown { IfOk result
            (λ node. GrownBy (HasBrought self.old) (HasBrought self.new) node.now) }
        ensures unchanged { OnErr result (SameNodes (HasBrought self.old) (HasBrought self.new)) }
        ensures none { OnErr result (HasNone (HasBrought self.new) key.now.0) }
        ensures why { IfErr result (WasRefusedFor self.old self.new key.now) }
        ensures costs { IfOk result (λ node. CostsFor self.old self.new node.now) }
        ensures spent { OnErr result (Spends self.old self.new (length (last_read self.new))) }
        ensures most { most_of self.new ≡ most_of self.old }
    {
        if let Some(node) = self.before(key) {
            return Ok(node);
        }
        self.read(key)?;
        match self.arena.try_alloc_slice_copy(self.buffer.as_slice()) {
            Ok(bytes) => {
                bytes_law(bytes);
                self.remember(key, Part::new(bytes))
            }
            Err(_) => Err(Refused::Memory),
        }
    }

    /// The node with this digest, if it was brought before.
    fn before(&self, key: &Digest) -> Option<&'a [u8]>
        ensures found { IfSome result (λ node.
            HasBrought self.now node.now × (digest_word node.now ≡ key.now.0)) }
        ensures none { result ≡ None → HasNone (HasBrought self.now) key.now.0 }
    {
        match self.brought.get(key) {
            Some(part) => Some(part.bytes()),
            None => None,
        }
    }

    /// Reads the bytes that the source gives for this digest into the buffer.
    fn read(&mut self, key: &Digest) -> Result<(), Refused>
        ensures why { IfErr result (WasRefusedFor self.old self.new key.now) }
        ensures within { OnOk result
            (ForSome (left_of self.old) (λ left. length (last_read self.new) ≤ left)) }
        ensures spent { Spends self.old self.new (length (last_read self.new)) }
        ensures most { most_of self.new ≡ most_of self.old }
        ensures room { OnOk result
            (HasRoomFor self.new.bound self.new.brought (last_read self.new)) }
        ensures brought { self.new.brought ≡ self.old.brought }
    {
        let at_most = self.at_most();
        self.buffer.clear();
        let read = self.source.read_node(key, at_most, &mut self.buffer);
        let len = self.buffer.len();
        if let Some(bound) = self.bound {
            self.bound = Some(bound.after(len));
        }
        read?;
        if len > at_most {
            return Err(Refused::TooMany);
        }
        Ok(())
    }

    /// How many bytes the next node may have.
    fn at_most(&self) -> usize
        ensures bounded { ForSome (left_of self.now) (λ left. result ≡ left) }
        ensures unbounded { left_of self.now ≡ None → result ≡ 0xffff_ffff_ffff_ffff }
    {
        match self.bound {
            Some(bound) => bound.left as usize,
            None => usize::MAX,
        }
    }

    /// Remembers these bytes as the node with this digest, which wasn't brought before, where they have it.
    fn remember(&mut self, key: &Digest, part: Part<'a>) -> Result<&'a [u8], Refused>
        requires fresh { HasNone (HasBrought self.old) key.now.0 }
        requires room { HasRoomFor self.old.bound self.old.brought (node_of part) }
        requires bytes { AreBytes (node_of part) }
        ensures node { IfOk result (λ node. node.now ≡ node_of part.entry) }
        ensures own { OnOk result (digest_word (node_of part.entry) ≡ key.now.0) }
        ensures grown { OnOk result
            (GrownBy (HasBrought self.old) (HasBrought self.new) (node_of part.entry)) }
        ensures unchanged { OnErr result (SameNodes (HasBrought self.old) (HasBrought self.new)) }
        ensures why { IfErr result (λ reason. (reason ≡ Memory)
            ⊎ ((reason ≡ Other) × (digest_word (node_of part.entry) ≢ key.now.0))) }
        ensures bound { self.new.bound ≡ self.old.bound }
        ensures buffer { self.new.buffer ≡ self.old.buffer }
    {
        if part.digest() != *key {
            return Err(Refused::Other);
        }
        match self.brought.insert(*key, part) {
            Ok(_) => Ok(part.bytes()),
            Err(_) => Err(Refused::Memory),
        }
    }
}

/// What the shelf says to walks where it gives no node.
fn shelf_fault(reason: Refused) -> ShelfFault
    ensures { result ≡ shelf_fault_of reason }
{
    match reason {
        Refused::Memory => ShelfFault::Memory,
        Refused::Absent | Refused::Other | Refused::Device | Refused::TooMany => {
            ShelfFault::Missing
        }
    }
}

impl<'a, N: NodeSource + Drop> Shelf<'a> for OutsideShelf<'a, N> {
    ghost use Rattle.outside_shelf.specs.Shelves.{CostsFor, HasBrought, KeepsBound, Spends, Tells, last_read, left_of, most_of, reason_of};
    ghost use Rattle.tree_node.specs.internal.RecorderLaws.{stands_once};

    ghost holds = { λ shelf. HasBrought shelf };

    ghost is_fixed = { false };

    ghost used = { λ shelf. HasBrought shelf };

    ghost takes_memory = { true };

    ghost clash_free = { λ shelf. stands_once (brought_at shelf.brought) };

    ghost used_held = { λ shelf x is. is };

    /// It asks the source only for a node that wasn't brought before.
    fn fetch(&mut self, key: &Digest) -> Result<&'a [u8], ShelfFault>
        ensures given { IfOk result (λ node.
            HasBrought self.new node.now × (digest_word node.now ≡ key.now.0)) }
        ensures grown { IfOk result
            (λ node. GrownBy (HasBrought self.old) (HasBrought self.new) node.now) }
        ensures grows { (x : List ℕ) → HasBrought self.old x → HasBrought self.new x }
        ensures unchanged { OnErr result (SameNodes (HasBrought self.old) (HasBrought self.new)) }
        ensures stays { Stays false (HasBrought self.old) (HasBrought self.new) }
        ensures missing { result ≡ Err ShelfFault.Missing
            → HasNone (HasBrought self.new) key.now.0 }
        ensures none { false ≡ true → HasNone (HasBrought self.new) key.now.0
            → result ≡ Err ShelfFault.Missing }
        ensures memory { result ≡ Err ShelfFault.Memory → true ≡ true }
        // Why it was refused is kept until the next node is asked for.
        ensures told { IfErr result (Tells self.old self.new key.now) }
        ensures reset { OnOk result (reason_of self.new ≡ None) }
        // What the source gave counts, and nothing is read for a node that was brought before.
        ensures costs { IfOk result (λ node. CostsFor self.old self.new node.now) }
        ensures spent { OnErr result (Spends self.old self.new (length (last_read self.new))) }
        // It hands over no more bytes than it may read.
        ensures most { most_of self.new ≡ most_of self.old }
        ensures bound { KeepsBound self.new }
    {
        match self.give(key) {
            Ok(node) => {
                self.refused = None;
                Ok(node)
            }
            Err(reason) => {
                self.refused = Some(reason);
                Err(shelf_fault(reason))
            }
        }
    }

    /// As `fetch`; it reads the node each time.
    fn fetch_node(&mut self, key: &Digest) -> Result<Fetched<'a>, ShelfFault>
        ensures given { IfOk result (GivesNode (record {
          held = HasBrought self.new;
          before = HasBrought self.old;
          after = HasBrought self.new;
        }) key.now.0) }
        ensures grows { (x : List ℕ) → HasBrought self.old x → HasBrought self.new x }
        ensures unchanged { OnErr result (SameNodes (HasBrought self.old) (HasBrought self.new)) }
        ensures stays { Stays false (HasBrought self.old) (HasBrought self.new) }
        ensures missing { result ≡ Err ShelfFault.Missing
            → HasNone (HasBrought self.new) key.now.0 }
        ensures none { false ≡ true → HasNone (HasBrought self.new) key.now.0
            → result ≡ Err ShelfFault.Missing }
        ensures memory { result ≡ Err ShelfFault.Memory → true ≡ true }
        // Why it was refused is kept until the next node is asked for.
        ensures told { IfErr result (Tells self.old self.new key.now) }
        ensures reset { OnOk result (reason_of self.new ≡ None) }
        // What the source gave counts, and nothing is read for a node that was brought before.
        ensures costs { IfOk result (λ node. CostsFor self.old self.new node.bytes.now) }
        ensures spent { OnErr result (Spends self.old self.new (length (last_read self.new))) }
        // It hands over no more bytes than it may read.
        ensures most { most_of self.new ≡ most_of self.old }
        ensures bound { KeepsBound self.new }
    {
        match self.fetch(key) {
            Ok(bytes) => Ok(Fetched {
                bytes,
                read: NodeRef::read(bytes),
            }),
            Err(fault) => Err(fault),
        }
    }

    /// It hands the hint on.
    fn announce(&mut self, top: &Digest, lo: &[u8], hi: &[u8])
        ensures stays { Stays false (HasBrought self.old) (HasBrought self.new) }
        ensures used { SameNodes (HasBrought self.old) (HasBrought self.new) }
        ensures reason { reason_of self.new ≡ reason_of self.old }
        ensures left { left_of self.new ≡ left_of self.old }
        ensures most { most_of self.new ≡ most_of self.old }
    {
        self.source.announce(top, lo, hi);
    }
}
