//! A shelf over the nodes of a proof.

ghost use Rattle.std.specs.List.{All, HoldsAt};
ghost use Rattle.std.specs.Prelude.{◌≡◌, ◌≢◌, ◌<◌, ◌↔◌, ℕ, List};
ghost use Rattle.std.specs.Prelude.{IfNone, IfOk, IfSome, IsTrue, false, length, true};
ghost use Rattle.tree_node.specs.Digests.{digest as digest_word};
ghost use Rattle.tree_node.specs.Parts.{HaveNode, HaveRisingDigests, node_of};
ghost use Rattle.tree_node.specs.Shelves.{IsEmptySet, SameNodes};

use crate::digest::Digest;
use crate::fetched::Fetched;
use crate::node::NodeRef;
use crate::order::order_of;
use crate::part::Part;
use crate::shelf::{FixedShelf, Shelf, ShelfFault};
use std::alloc::{AllocError, Global};
use std::cmp::Ordering;

/// A shelf over given nodes, as those of a proof. It lends the bytes that its parts borrow, and
/// keeps a mark for each part that was used.
#[derive(Drop)]
pub struct Bag<'a> {
    parts: Vec<Part<'a>>,
    marks: Vec<bool>,
    ghost marked: { length marks.items ≡ length parts.items },
    ghost rising: { HaveRisingDigests parts.items },
}

impl<'a> Bag<'a> {
    ghost use Rattle.tree_node.specs.Bags.{BagHolds, BagUsed};

    /// A shelf over these parts, none of them used. The parts are dropped where memory for the marks
    /// is refused.
    pub fn new(alloc: Global, parts: Vec<Part<'a>>) -> Result<Bag<'a>, AllocError>
        requires rising { HaveRisingDigests parts.items }
        ensures holds { IfOk result (λ bag. SameNodes (HaveNode parts.entry.items) (BagHolds bag)) }
        ensures unused { IfOk result (λ bag. IsEmptySet (BagUsed bag)) }
    {
        let marks = vec![in alloc; false; parts.len()]?;
        Ok(Bag { parts, marks })
    }

    /// Whether each part was used. It takes no memory and is linear in the number of parts.
    pub fn all_used(&self) -> bool
        ensures used { IsTrue result ↔ ((x : List ℕ) → BagHolds self.now x → BagUsed self.now x) }
        // Where it says no, there is a part that was not used.
        ensures unused { result ≡ false → (x : List ℕ) × BagHolds self.now x × ¬ BagUsed self.now x }
    {
        for mark in self.marks.as_slice() {
            if !*mark {
                return false;
            }
        }
        true
    }

    /// The place of the part with this digest, found by binary search.
    fn find(&self, key: &Digest) -> Option<usize>
        ensures found { IfSome result (λ k. (k < length self.now.parts.items)
            × HoldsAt (λ p. digest_word (node_of p) ≡ key.now.0) self.now.parts.items k) }
        ensures none { IfNone result
            (All (λ p. digest_word (node_of p) ≢ key.now.0) self.now.parts.items) }
    {
        let mut low = 0;
        let mut high = self.parts.len();
        while low < high {
            let middle = low + (high - low) / 2;
            match order_of(&self.parts[middle].digest(), key) {
                Ordering::Less => low = middle + 1,
                Ordering::Equal => return Some(middle),
                Ordering::Greater => high = middle,
            }
        }
        None
    }
}

impl<'a> Shelf<'a> for Bag<'a> {
    ghost use Rattle.tree_node.specs.Bags.{BagHolds, BagUsed};

    ghost holds = { BagHolds };

    ghost used = { BagUsed };

    ghost is_fixed = { true };

    ghost takes_memory = { false };

    ghost use Rattle.tree_node.specs.internal.BagLaws.{no_clash, marked_held};

    ghost clash_free = { λ b. no_clash b.parts.items b.rising };

    ghost used_held = { λ b. marked_held b.parts.items b.marks.items };

    /// It takes no memory and is logarithmic in the number of parts.
    fn fetch(&mut self, key: &Digest) -> Result<&'a [u8], ShelfFault> {
        match self.find(key) {
            Some(place) => {
                self.marks[place] = true;
                Ok(self.parts[place].bytes())
            }
            None => Err(ShelfFault::Missing),
        }
    }

    /// It takes no memory, and reads the node each time. It is linear in the bytes, and logarithmic in the
    /// number of parts.
    fn fetch_node(&mut self, key: &Digest) -> Result<Fetched<'a>, ShelfFault> {
        match self.fetch(key) {
            Ok(bytes) => Ok(Fetched {
                bytes,
                read: NodeRef::read(bytes),
            }),
            Err(fault) => Err(fault),
        }
    }

    /// It takes no hint.
    fn announce(&mut self, _top: &Digest, _lo: &[u8], _hi: &[u8]) {}
}

impl<'a> FixedShelf<'a> for Bag<'a> {
    ghost use Rattle.std.specs.Prelude.{refl};

    ghost fixed = { refl };
}
