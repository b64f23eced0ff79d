//! Shelves of which proofs are made.

ghost use Rattle.std.specs.Prelude.{ℕ, IfOk, List};
ghost use Rattle.tree_node.specs.Nodes.{AreBytes};
ghost use Rattle.tree_node.specs.Parts.{HaveNode, HaveRisingDigests};
ghost use Rattle.tree_node.specs.Shelves.{SameNodes};

use crate::outside::OutsideShelf;
use crate::refused::Refused;
use crate::source::NodeSource;
use crate::stocked::StockedShelf;
use std::alloc::{AllocError, Global};
use tree_node::{Part, Shelf};

/// A shelf of which proofs are made: it lists the nodes that were used, and tells why it gave none.
pub trait ProofShelf<'a>: Shelf<'a> {
    /// The nodes that were used, each once, by rising digest, in memory from `alloc`. No bytes are copied and no digest is
    /// computed again. It sorts them, so it takes n log n time for n nodes.
    fn used_parts(&self, alloc: Global) -> Result<Vec<Part<'a>>, AllocError>
        ensures rising { IfOk result (λ parts. HaveRisingDigests parts.items) }
        ensures used { IfOk result (λ parts.
            SameNodes (Self.used self.now) (HaveNode parts.items)) };

    /// Why the node that was asked for last wasn't given; none where it was, and where nobody knows.
    fn reason(&self) -> Option<Refused>;

    /// The nodes that were used are byte strings.
    ghost used_bytes: { (shelf : Self) (node : List ℕ) → Self.Shelf.used shelf node → AreBytes node };
}

impl<'a, N: NodeSource + Drop> ProofShelf<'a> for OutsideShelf<'a, N> {
    ghost use Rattle.tree_node.specs.Keys.{key_of};

    ghost used_bytes = { λ shelf node is. shelf.bytes (key_of node) node is };

    fn used_parts(&self, alloc: Global) -> Result<Vec<Part<'a>>, AllocError> {
        self.parts(alloc)
    }

    fn reason(&self) -> Option<Refused> {
        self.refused()
    }
}

impl<'a, N: NodeSource + Drop> ProofShelf<'a> for StockedShelf<'a, N> {
    ghost use Rattle.tree_node.specs.Keys.{key_of, lent_at, owned_at};
    ghost use Rattle.tree_node.specs.internal.RecorderLaws.{given_held};
    ghost use Rattle.outside_shelf.specs.internal.StockedLaws.{bytes_together};

    ghost used_bytes = { λ shelf. bytes_together (λ node is. shelf.stocked node
        (given_held (owned_at shelf.recorder.stock.now.nodes)
        (lent_at shelf.recorder.given) shelf.recorder.own node is))
        (λ node is. shelf.outside.bytes (key_of node) node is) };

    fn used_parts(&self, alloc: Global) -> Result<Vec<Part<'a>>, AllocError> {
        self.list_used(alloc)
    }

    fn reason(&self) -> Option<Refused> {
        self.refused()
    }
}
