//! An entry of a leaf.

ghost use Rattle.std.specs.Prelude.{◌≡◌, ◌++◌, IsOk, Ok, OnOk};
ghost use Rattle.tree_node.specs.NodeRefs.{binding_of};
ghost use Rattle.tree_node.specs.Nodes.{FitsEntry, entry};
ghost use Rattle.tree_node.specs.internal.Reading.{Gives};
ghost use Rattle.tree_node.specs.Fronts.{entry_at};
ghost use Rattle.tree_node.specs.internal.Writing.{Extends};

use crate::fault::NodeFault;
use crate::fields::{u16_at, u32_at};
use std::alloc::AllocError;

/// The fewest bytes of an entry, whose key and value are then empty.
const FEWEST_BYTES: usize = 6;

/// An entry of a leaf: two slices of the node's bytes.
#[derive(Clone, Copy, Debug)]
pub struct Item<'a> {
    /// What the entries are ordered by, byte by byte.
    pub key: &'a [u8],
    /// What the tree has under the key.
    pub value: &'a [u8],
}

impl<'a> Item<'a> {
    /// The entry at the front of the bytes, and what follows it; N1 where it is cut short.
    #[inline(always)]
    pub(crate) fn read_front(bytes: &'a [u8]) -> Result<(Item<'a>, &'a [u8]), NodeFault>
        ensures { Gives (λ x. (binding_of x.0, x.1.now)) result (entry_at bytes.now) }
    {
        if bytes.len() < FEWEST_BYTES {
            return Err(NodeFault::CutShort);
        }
        let (len, rest) = u16_at(bytes);
        if rest.len() - 4 < len as usize {
            return Err(NodeFault::CutShort);
        }
        let (key, rest) = rest.split_at(len as usize);
        let (len, rest) = u32_at(rest);
        if rest.len() < len as usize {
            return Err(NodeFault::CutShort);
        }
        let (value, rest) = rest.split_at(len as usize);
        Ok((Item { key, value }, rest))
    }

    /// The entry at the front of bytes that begin with one, and what follows it.
    #[inline(always)]
    pub(crate) fn front(bytes: &'a [u8]) -> (Item<'a>, &'a [u8])
        requires { IsOk (entry_at bytes.now) }
        ensures { entry_at bytes.now ≡ Ok (binding_of result.0, result.1.now) }
    {
        let (len, rest) = u16_at(bytes);
        let (key, rest) = rest.split_at(len as usize);
        let (len, rest) = u32_at(rest);
        let (value, rest) = rest.split_at(len as usize);
        (Item { key, value }, rest)
    }

    /// Appends the entry's bytes; out of memory it leaves what it wrote.
    pub(crate) fn append(&self, out: &mut Vec<u8>) -> Result<(), AllocError>
        requires { FitsEntry (binding_of self.now) }
        ensures written { OnOk result
            (out.new.items ≡ out.old.items ++ entry (binding_of self.now)) }
        ensures extended { Extends out.old.items out.new.items }
    {
        out.extend_from_slice(&(self.key.len() as u16).to_be_bytes())?;
        out.extend_from_slice(self.key)?;
        out.extend_from_slice(&(self.value.len() as u32).to_be_bytes())?;
        out.extend_from_slice(self.value)
    }
}
