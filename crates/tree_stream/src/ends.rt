//! Where pieces end.

ghost use Rattle.std.specs.Prelude.{◌≡◌, ℕ, List};
ghost use Rattle.tree_build.specs.Shapes.{shape_of};
ghost use Rattle.tree_node.specs.Nodes.{Link};
ghost use Rattle.tree_node.specs.Trees.{ends_by, is_marked_entry, is_marked_link};

use tree_build::Shape;
use tree_node::{Digest, ITEM_LIMIT, digest_of};

/// The first bytes of digests below this one mark an item, one in 32.
const MARKED_BELOW: u8 = 8;

/// Whether a leaf ends after the entry with this key as its entry of this number, from 1. The key is digested only where
/// that decides.
pub(crate) fn leaf_ends(shape: Shape, number: usize, key: &[u8]) -> bool
    ensures { (value : List ℕ)
        → result ≡ ends_by (shape_of shape) is_marked_entry number (record { key = key.now; value = value }) }
{
    match shape {
        Shape::One => number == ITEM_LIMIT,
        Shape::Two => number == ITEM_LIMIT || (number > 1 && is_mark(&digest_of(key))),
    }
}

/// Whether an inner node ends after the child with this digest as its child of this number, from 1.
pub(crate) fn inner_ends(shape: Shape, number: usize, child: &Digest) -> bool
    ensures { (link : Link) → link.child ≡ child.now.0
        → result ≡ ends_by (shape_of shape) is_marked_link number link }
{
    match shape {
        Shape::One => number == ITEM_LIMIT,
        Shape::Two => number == ITEM_LIMIT || (number > 1 && is_mark(child)),
    }
}

/// Whether an item with this digest is marked.
fn is_mark(digest: &Digest) -> bool
    ensures { (link : Link) → link.child ≡ digest.now.0 → result ≡ is_marked_link link }
{
    digest.0[0] < MARKED_BELOW
}
