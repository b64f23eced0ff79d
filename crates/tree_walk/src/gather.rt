//! What a walk gathers: the entries, or their number.

ghost use Rattle.std.specs.Option.{option_copied};
ghost use Rattle.std.specs.Prelude.{[], ◌≡◌, ◌+◌, ◌↔◌, ◌∷◌, Bool, IsTrue, List, OnOk, Option, false, length, true, ℕ};
ghost use Rattle.tree_node.specs.NodeRefs.{binding_of, bindings_of, link_of};
ghost use Rattle.tree_node.specs.Nodes.{Binding, Link};
ghost use Rattle.tree_walk.specs.Ranges.{range_of};
ghost use Rattle.tree_walk.specs.internal.Accounts.{Gains};
ghost use Rattle.tree_walk.specs.Given.{saturating_u64, sum_stated};
ghost use Rattle.tree_walk.specs.internal.Openings.{IsClosed};

use crate::key_range::KeyRange;
use std::alloc::AllocError;
use tree_node::{Child, Item};

/// What a walk gathers of a tree.
pub(crate) trait Gather<'a> {
    /// Whether what the range covers stays closed.
    ghost closing: { Bool };

    /// These children that stayed closed, and these entries, have been gathered.
    ghost gathers: { Self → List (Option (List ℕ) × Link) → List Binding → Type 0 };

    /// Whether this child stays closed. Then all that its parent states of it is gathered.
    fn closes(&mut self, range: &KeyRange<'_>, left: Option<&'a [u8]>, child: &Child<'a>) -> bool
        ensures told { IsTrue result ↔ IsClosed closing (range_of range.now)
            (option_copied left.entry) child.now.greatest.now }
        ensures closed { result ≡ true → Gains gathers self.old self.new
            ((option_copied left.entry, link_of child.now) ∷ []) [] }
        ensures opened { result ≡ false → Gains gathers self.old self.new [] [] };

    /// Gathers an entry. Refused where there is no memory for it, or no room.
    fn take(&mut self, item: Item<'a>) -> Result<(), AllocError>
        ensures { OnOk result (Gains gathers self.old self.new [] (binding_of item.entry ∷ [])) };

    /// How many children of one level may wait to be opened. Where there are more, there are too many entries.
    fn room(&self) -> usize;
}

/// The entries that were found, in the order of their keys.
#[derive(Drop)]
pub(crate) struct Found<'a> {
    /// The entries so far.
    pub(crate) items: Vec<Item<'a>>,
    /// How many there may be.
    pub(crate) most: usize,
}

impl<'a> Gather<'a> for Found<'a> {
    ghost closing = { false };

    ghost gathers = { λ found closed entries. bindings_of found.items.items ≡ entries };

    fn closes(
        &mut self,
        _range: &KeyRange<'_>,
        _left: Option<&'a [u8]>,
        _child: &Child<'a>,
    ) -> bool {
        false
    }

    fn take(&mut self, item: Item<'a>) -> Result<(), AllocError> {
        if self.items.len() >= self.most {
            return Err(AllocError);
        }
        self.items.push(item)?;
        Ok(())
    }

    // Each has an entry of the range, but for the first and the last one, whose entries may lie beside it.
    fn room(&self) -> usize {
        self.most.saturating_add(2)
    }
}

/// The number of entries. At its greatest it stays there.
#[derive(Drop)]
pub(crate) struct Counted {
    /// How many there are so far.
    pub(crate) number: u64,
}

impl<'a> Gather<'a> for Counted {
    ghost closing = { true };

    ghost gathers = { λ counted closed entries.
        counted.number ≡ saturating_u64 (sum_stated closed + length entries) };

    fn closes(&mut self, range: &KeyRange<'_>, left: Option<&'a [u8]>, child: &Child<'a>) -> bool {
        let closed = range.covers(left, child.greatest);
        if closed {
            self.number = self.number.saturating_add(child.number);
        }
        closed
    }

    fn take(&mut self, _item: Item<'a>) -> Result<(), AllocError> {
        self.number = self.number.saturating_add(1);
        Ok(())
    }

    fn room(&self) -> usize {
        usize::MAX
    }
}
