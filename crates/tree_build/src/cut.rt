//! Where a list is cut into pieces.

ghost use Rattle.std.specs.Prelude.{◌≡◌, Bool};
ghost use Rattle.tree_build.specs.internal.Building.{IsFirstPiece};
ghost use Rattle.tree_build.specs.Shapes.{shape_of};
ghost use Rattle.tree_node.specs.Trees.{ends_by};

use crate::Entry;
use crate::shape::Shape;
use tree_node::{Child, ITEM_LIMIT, digest_of};

/// The first bytes of digests below this one mark an item, one in 32.
const MARKED_BELOW: u8 = 8;

/// An item of a list that is cut into pieces.
pub(crate) trait Cut {
    /// Whether the item is marked.
    ghost marked: { Self → Bool };

    /// Whether a piece of the second shape may end after the item.
    fn is_marked(&self) -> bool
        ensures { result ≡ marked self.now };
}

impl<'a> Cut for Entry<'a> {
    ghost use Rattle.tree_node.specs.NodeRefs.{binding_of};
    ghost use Rattle.tree_node.specs.Trees.{is_marked_entry};

    ghost marked = { λ item. is_marked_entry (binding_of item) };

    /// It digests the key.
    fn is_marked(&self) -> bool {
        digest_of(self.key).0[0] < MARKED_BELOW
    }
}

impl<'a> Cut for Child<'a> {
    ghost use Rattle.tree_node.specs.NodeRefs.{link_of};
    ghost use Rattle.tree_node.specs.Trees.{is_marked_link};

    ghost marked = { λ child. is_marked_link (link_of child) };

    fn is_marked(&self) -> bool {
        self.digest.0[0] < MARKED_BELOW
    }
}

/// The first piece of the list, without items only where the list has none. It looks at no item after
/// that piece.
pub(crate) fn first_piece<T: Cut>(items: &[T], shape: Shape) -> &[T]
    ensures { IsFirstPiece (ends_by (shape_of shape) T.marked) items.now result.now }
{
    let mut len = 0;
    for item in items {
        len += 1;
        if ends_after(item, len, shape) {
            return &items[..len];
        }
    }
    items
}

/// Whether a piece ends after this item as its item of this number, from 1. A mark is looked at only
/// where it decides.
pub(crate) fn ends_after<T: Cut>(item: &T, number: usize, shape: Shape) -> bool
    ensures { result ≡ ends_by (shape_of shape) T.marked number item.now }
{
    match shape {
        Shape::One => number == ITEM_LIMIT,
        Shape::Two => number == ITEM_LIMIT || (number > 1 && item.is_marked()),
    }
}
