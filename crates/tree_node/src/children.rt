//! The children of an inner node, one after the other.

ghost use Rattle.std.specs.Iterator.{YieldsFirstBy, item_count};
ghost use Rattle.std.specs.Option.{option_copied};
ghost use Rattle.std.specs.Prelude.{◌≡◌, IfOk, None, sum_by};
ghost use Rattle.tree_node.specs.Held.{HoldsLinks};
ghost use Rattle.tree_node.specs.NodeRefs.{link_of};
ghost use Rattle.tree_node.specs.Nodes.{AreBytes, Link, greatests_of};
ghost use Rattle.tree_node.specs.internal.Reading.{Gives, links_after};
ghost use Rattle.tree_node.specs.Fronts.{links_at_front};
ghost use Rattle.tree_node.specs.Skips.{from_key, key_before};
ghost use Rattle.tree_node.specs.Trees.{last_key};

use crate::child::Child;
use crate::fault::NodeFault;
use crate::order::{is_above, is_below};
use std::marker::Model;

/// The children of an inner node that are still to come, in rising order of their greatest keys. Each
/// is read from the node's bytes when its turn comes; it takes no memory. The number of entries below
/// them and the greatest key are known from the reading of the node.
#[derive(Drop)]
pub struct Children<'a> {
    count: u16,
    rest: &'a [u8],
    greatest: &'a [u8],
    number: u64,
}

impl<'a> Model for Children<'a> {
    ghost use Rattle.std.specs.Prelude.{List};
    ghost use Rattle.tree_node.specs.Held.{HoldsLinks};
    ghost use Rattle.tree_node.specs.Nodes.{Link};
    ghost use Rattle.tree_node.specs.Fronts.{links_at_front};

    ghost Value = { List Link };

    ghost view = { λ s. links_at_front s.count s.rest.now };

    ghost invariant = { λ s. HoldsLinks s.count s.rest.now s.greatest.now s.number };
}

impl<'a> Iterator for Children<'a> {
    type Item = Child<'a>;

    ghost next_gives = { YieldsFirstBy link_of (λ s. s) };

    ghost remaining = { item_count (λ s. s) };

    #[inline(always)]
    #[tactic(auto, unfolding(crate::specs::Fronts::links_at_front))]
    fn next(&mut self) -> Option<Child<'a>> {
        if self.count == 0 {
            return None;
        }
        let (child, rest) = Child::front(self.rest);
        self.rest = rest;
        self.count -= 1;
        self.number -= child.number;
        Some(child)
    }
}

impl<'a> Children<'a> {
    /// The same children once more, from where these stand.
    #[inline(always)]
    pub fn again(&self) -> Children<'a>
        ensures { result ≡ self.now }
    {
        Children {
            count: self.count,
            rest: self.rest,
            greatest: self.greatest,
            number: self.number,
        }
    }

    /// How many entries are below the children that are still to come, all together.
    pub fn number(&self) -> u64
        ensures { result ≡ sum_by (λ (link : Link). link.number) self.now }
    {
        self.number
    }

    /// The greatest key below the children that are still to come, which is that of the last one; empty
    /// where there is none.
    pub fn greatest(&self) -> &'a [u8]
        ensures { result.now ≡ last_key (greatests_of self.now) }
    {
        match self.count {
            0 => b"",
            _ => self.greatest,
        }
    }

    /// Skips the children whose greatest keys are below this one, and gives the greatest key of the last child that it
    /// skipped, if any.
    pub fn skip_below(self, key: &[u8]) -> (Option<&'a [u8]>, Children<'a>)
        ensures before { option_copied result.0 ≡ key_before (λ (link : Link). link.greatest) key.now None self.entry }
        ensures children { result.1 ≡ from_key (λ (link : Link). link.greatest) key.now self.entry }
        // As its type says.
        ensures bytes { AreBytes key.now }
    {
        let mut before = None;
        let mut found = self;
        let mut ahead = found.again();
        while let Some(child) = ahead.next() {
            if !is_below(child.greatest, key) {
                return (before, found);
            }
            before = Some(child.greatest);
            found = ahead.again();
        }
        (before, found)
    }

    /// This many children at the front of the bytes, and what follows them. Their keys have to
    /// rise: N1 where a child is cut short, N3 where its number of entries is out of range, N4 where its
    /// greatest key isn't above the one before it.
    pub(crate) fn read(count: u16, bytes: &'a [u8]) -> Result<(Children<'a>, &'a [u8]), NodeFault>
        ensures after { Gives (λ x. x.1.now) result (links_after count None bytes.now) }
        ensures children { IfOk result (λ x. x.0 ≡ links_at_front count bytes.now) }
    {
        let (greatest, number, after) = skip_children(count, bytes)?;
        let children = Children {
            count,
            rest: bytes,
            greatest,
            number,
        };
        Ok((children, after))
    }
}

/// The last greatest key of this many children at the front of the bytes, the number of entries below
/// them, and what follows them.
#[inline(never)]
fn skip_children(count: u16, bytes: &[u8]) -> Result<(&[u8], u64, &[u8]), NodeFault>
    ensures after { Gives (λ x. x.2.now) result (links_after count None bytes.now) }
    ensures held { IfOk result (λ x. HoldsLinks count bytes.now x.0.now x.1) }
{
    let mut rest = bytes;
    let mut low: Option<&[u8]> = None;
    let mut number: u64 = 0;
    for _ in 0..count {
        let (child, after) = Child::read_front(rest)?;
        if !is_above(low, child.greatest) {
            return Err(NodeFault::NotRising);
        }
        low = Some(child.greatest);
        number += child.number;
        rest = after;
    }
    match low {
        Some(greatest) => Ok((greatest, number, rest)),
        None => Ok((b"", number, rest)),
    }
}
