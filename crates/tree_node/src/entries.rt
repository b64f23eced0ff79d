//! The entries of a leaf, one after the other.

ghost use Rattle.std.specs.Iterator.{YieldsFirstBy, item_count};
ghost use Rattle.std.specs.Prelude.{◌≡◌, IfOk, None, length};
ghost use Rattle.tree_node.specs.Held.{HoldsEntries};
ghost use Rattle.tree_node.specs.NodeRefs.{binding_of};
ghost use Rattle.tree_node.specs.Nodes.{Binding, keys_of};
ghost use Rattle.tree_node.specs.internal.Reading.{Gives, entries_after};
ghost use Rattle.tree_node.specs.Fronts.{entries_at_front};
ghost use Rattle.tree_node.specs.Skips.{from_key};
ghost use Rattle.tree_node.specs.Trees.{last_key};

use crate::fault::NodeFault;
use crate::item::Item;
use crate::order::{is_above, is_below};
use std::marker::Model;

/// The entries of a leaf that are still to come, in rising order of their keys. Each is read from
/// the node's bytes when its turn comes; it takes no memory. How many there are and the greatest key
/// are known from the reading of the node.
#[derive(Drop)]
pub struct Entries<'a> {
    count: u16,
    rest: &'a [u8],
    greatest: &'a [u8],
}

impl<'a> Model for Entries<'a> {
    ghost use Rattle.std.specs.Prelude.{List};
    ghost use Rattle.tree_node.specs.Held.{HoldsEntries};
    ghost use Rattle.tree_node.specs.Nodes.{Binding};
    ghost use Rattle.tree_node.specs.Fronts.{entries_at_front};

    ghost Value = { List Binding };

    ghost view = { λ s. entries_at_front s.count s.rest.now };

    ghost invariant = { λ s. HoldsEntries s.count s.rest.now s.greatest.now };
}

impl<'a> Iterator for Entries<'a> {
    type Item = Item<'a>;

    ghost next_gives = { YieldsFirstBy binding_of (λ s. s) };

    ghost remaining = { item_count (λ s. s) };

    #[inline(always)]
    #[tactic(auto, unfolding(crate::specs::Fronts::entries_at_front))]
    fn next(&mut self) -> Option<Item<'a>> {
        if self.count == 0 {
            return None;
        }
        let (item, rest) = Item::front(self.rest);
        self.rest = rest;
        self.count -= 1;
        Some(item)
    }
}

impl<'a> Entries<'a> {
    /// The same entries once more, from where these stand.
    #[inline(always)]
    pub fn again(&self) -> Entries<'a>
        ensures { result ≡ self.now }
    {
        Entries {
            count: self.count,
            rest: self.rest,
            greatest: self.greatest,
        }
    }

    /// How many entries are still to come.
    pub fn number(&self) -> u64
        ensures { result ≡ length self.now }
    {
        u64::from(self.count)
    }

    /// The greatest of the keys that are still to come, which is the last one; empty where there is
    /// none.
    pub fn greatest(&self) -> &'a [u8]
        ensures { result.now ≡ last_key (keys_of self.now) }
    {
        match self.count {
            0 => b"",
            _ => self.greatest,
        }
    }

    /// Skips the entries whose keys are below this one.
    pub fn skip_below(self, key: &[u8]) -> Entries<'a>
        ensures { result ≡ from_key (λ (entry : Binding). entry.key) key.now self.entry }
    {
        let mut found = self;
        let mut ahead = found.again();
        while let Some(item) = ahead.next() {
            if !is_below(item.key, key) {
                return found;
            }
            found = ahead.again();
        }
        found
    }

    /// This many entries at the front of the bytes, and what follows them. Their keys have to
    /// rise: N1 where an entry is cut short, N4 where its key isn't above the one before it.
    pub(crate) fn read(count: u16, bytes: &'a [u8]) -> Result<(Entries<'a>, &'a [u8]), NodeFault>
        ensures after { Gives (λ x. x.1.now) result (entries_after count None bytes.now) }
        ensures entries { IfOk result (λ x. x.0 ≡ entries_at_front count bytes.now) }
    {
        let (greatest, after) = skip_entries(count, bytes)?;
        let entries = Entries {
            count,
            rest: bytes,
            greatest,
        };
        Ok((entries, after))
    }
}

/// The last key of this many entries at the front of the bytes, and what follows them.
#[inline(never)]
fn skip_entries(count: u16, bytes: &[u8]) -> Result<(&[u8], &[u8]), NodeFault>
    ensures after { Gives (λ x. x.1.now) result (entries_after count None bytes.now) }
    ensures greatest { IfOk result (λ x. HoldsEntries count bytes.now x.0.now) }
{
    let mut rest = bytes;
    let mut low: Option<&[u8]> = None;
    for _ in 0..count {
        let (item, after) = Item::read_front(rest)?;
        if !is_above(low, item.key) {
            return Err(NodeFault::NotRising);
        }
        low = Some(item.key);
        rest = after;
    }
    match low {
        Some(greatest) => Ok((greatest, rest)),
        None => Ok((b"", rest)),
    }
}
