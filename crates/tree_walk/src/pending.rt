//! Children that a walk will fetch.

ghost use Rattle.std.specs.Option.{option_copied};
ghost use Rattle.std.specs.Prelude.{[], ◌≡◌, ◌++◌, ◌↔◌, IsTrue, List, OnOk, Option, ℕ};
ghost use Rattle.tree_node.specs.NodeRefs.{binding_of, bindings_of, link_of};
ghost use Rattle.tree_node.specs.Nodes.{AreRisingFrom, Inner, Leaf, Link, greatests_of};
ghost use Rattle.tree_walk.specs.Choices.{AreThose};
ghost use Rattle.tree_walk.specs.Given.{IsEntered};
ghost use Rattle.tree_walk.specs.internal.Accounts.{Gains};
ghost use Rattle.tree_walk.specs.internal.Openings.{IsClosedChild, IsOpenChild};
ghost use Rattle.tree_walk.specs.internal.Pendings.{spot_of, spots_of};
ghost use Rattle.tree_walk.specs.Reasons.{Agrees};
ghost use Rattle.tree_walk.specs.Spans.{children_placed};
ghost use Rattle.tree_walk.specs.Ranges.{IsIn, range_of};

use crate::gather::Gather;
use crate::key_range::KeyRange;
use smallvec::SmallVec;
use std::alloc::AllocError;
use tree_node::{Child, Children, Digest, Entries, is_above};

/// A child that is opened, as its parent states it.
#[derive(Clone, Copy)]
pub(crate) struct Pending<'a> {
    /// The greatest key of its left neighbour; a first child has its parent's left bound.
    pub(crate) left: Option<&'a [u8]>,
    /// What its parent states of it.
    pub(crate) child: Child<'a>,
}

/// The children of a level that a walk goes into. Up to two take no memory; a walk for one key goes into one of each level.
pub(crate) type AllPending<'a> = SmallVec<Pending<'a>, 2>;

impl Default for Pending<'_> {
    /// A child that no walk goes into: what a list has where it has none yet.
    fn default() -> Self {
        Pending {
            left: None,
            child: Child {
                greatest: b"",
                number: 0,
                digest: Digest([0; 32]),
            },
        }
    }
}

impl<'a> Pending<'a> {
    /// Whether an inner node with these children is as its parent states.
    pub(crate) fn is_inner(&self, children: &Children<'a>) -> bool
        ensures { (tree level : ℕ)
            → IsTrue result ↔ Agrees (spot_of self.now) (Inner tree level children.now) }
    {
        let starts = match children.again().next() {
            Some(first) => is_above(self.left, first.greatest),
            None => true,
        };
        starts
            && children.number() == self.child.number
            && children.greatest() == self.child.greatest
    }

    /// Whether a leaf with these entries is as its parent states.
    pub(crate) fn is_leaf(&self, entries: &Entries<'a>) -> bool
        ensures { (tree : ℕ) → IsTrue result ↔ Agrees (spot_of self.now) (Leaf tree entries.now) }
    {
        let starts = match entries.again().next() {
            Some(first) => is_above(self.left, first.key),
            None => true,
        };
        starts && entries.number() == self.child.number && entries.greatest() == self.child.greatest
    }
}

/// Puts the children that are opened after those of the nodes to the left, and gathers those that stay
/// closed. It stops at the first child that begins where the range has ended. Refused where memory runs out, or the room for
/// children that wait.
pub(crate) fn pick<'a, G: Gather<'a>>(
    children: Children<'a>,
    left: Option<&'a [u8]>,
    range: &KeyRange<'_>,
    pending: &mut AllPending<'a>,
    gathered: &mut G,
) -> Result<(), AllocError>
    requires some { IsIn (range_of range.now) range.now.lo.now }
    requires rising { AreRisingFrom (option_copied left) (greatests_of children) }
    ensures { OnOk result ((picked closed : List (Option (List ℕ) × Link))
        × (spots_of pending.new.items ≡ spots_of pending.old.items ++ picked)
        × AreThose (IsOpenChild G.closing (range_of range.now))
        (children_placed (option_copied left.entry) children.entry) picked
        × AreThose (IsClosedChild G.closing (range_of range.now))
        (children_placed (option_copied left.entry) children.entry) closed
        × Gains G.gathers gathered.old gathered.new closed []
        × AreThose (IsEntered (IsClosedChild G.closing (range_of range.now)) (range_of range.now))
        (children_placed (option_copied left.entry) children.entry) picked) }
{
    let (before, children) = children.skip_below(range.lo);
    let mut bound = before.or(left);
    for child in children {
        if !range.goes_on_above(bound) {
            return Ok(());
        }
        if pending.len() >= gathered.room() {
            return Err(AllocError);
        }
        if !gathered.closes(range, bound, &child) {
            pending.push(Pending { left: bound, child })?;
        }
        bound = Some(child.greatest);
    }
    Ok(())
}
