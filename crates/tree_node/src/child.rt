//! What an inner node says of a child.

ghost use Rattle.std.specs.Prelude.{◌≡◌, ◌++◌, ◌^◌, ◌<◌, ◌≤◌, ◌+◌, IfOk, IsOk, Ok, OnOk, length};
ghost use Rattle.tree_node.specs.NodeRefs.{link_of};
ghost use Rattle.tree_node.specs.Nodes.{link};
ghost use Rattle.tree_node.specs.internal.Reading.{Gives, link_by};
ghost use Rattle.tree_node.specs.Fronts.{link_at};
ghost use Rattle.tree_node.specs.internal.Writing.{Extends};

use crate::digest::Digest;
use crate::fault::NodeFault;
use crate::fields::{digest_at, u16_at, u64_at};
use crate::limits::NUMBER_LIMIT;
use std::alloc::AllocError;

/// The fewest bytes of a child, whose greatest key is then empty.
const FEWEST_BYTES: usize = 42;

/// What an inner node says of one of its children. The key is a slice of the node's bytes.
#[derive(Clone, Copy, Debug)]
pub struct Child<'a> {
    /// The greatest key below the child.
    pub greatest: &'a [u8],
    /// How many entries there are below the child, from 1 to 2^40.
    pub number: u64,
    /// The digest of the child's bytes.
    pub digest: Digest,
}

impl<'a> Child<'a> {
    /// The child at the front of the bytes, and what follows it; N1 where it is cut short, N3
    /// where its number of entries is out of range.
    #[inline(always)]
    pub(crate) fn read_front(bytes: &'a [u8]) -> Result<(Child<'a>, &'a [u8]), NodeFault>
        ensures read { Gives (λ x. (link_of x.0, x.1.now)) result (link_at bytes.now) }
        ensures number { IfOk result (λ x. x.0.number ≤ 2 ^ 40) }
    {
        if bytes.len() < FEWEST_BYTES {
            return Err(NodeFault::CutShort);
        }
        let (len, _) = u16_at(bytes);
        if bytes.len() - FEWEST_BYTES < len as usize {
            return Err(NodeFault::CutShort);
        }
        let (child, rest) = Child::front_by(len as usize, bytes);
        if child.number < 1 || child.number > NUMBER_LIMIT {
            return Err(NodeFault::BadCount);
        }
        Ok((child, rest))
    }

    /// The child at the front of bytes that begin with one, and what follows it.
    #[inline(always)]
    pub(crate) fn front(bytes: &'a [u8]) -> (Child<'a>, &'a [u8])
        requires { IsOk (link_at bytes.now) }
        ensures { link_at bytes.now ≡ Ok (link_of result.0, result.1.now) }
    {
        let (len, _) = u16_at(bytes);
        Child::front_by(len as usize, bytes)
    }

    /// The child at the front of the bytes, where its greatest key has this length.
    #[inline(always)]
    fn front_by(len: usize, bytes: &'a [u8]) -> (Child<'a>, &'a [u8])
        requires { 42 + len ≤ length bytes.now }
        ensures { (link_of result.0, result.1.now) ≡ link_by len bytes.now }
    {
        let (_, rest) = bytes.split_at(2);
        let (greatest, rest) = rest.split_at(len);
        let (number, rest) = u64_at(rest);
        let (digest, rest) = digest_at(rest);
        let child = Child {
            greatest,
            number,
            digest,
        };
        (child, rest)
    }

    /// Appends the child's bytes; out of memory it leaves what it wrote.
    pub(crate) fn append(&self, out: &mut Vec<u8>) -> Result<(), AllocError>
        requires { length self.now.greatest.now < 2 ^ 16 }
        ensures written { OnOk result (out.new.items ≡ out.old.items ++ link (link_of self.now)) }
        ensures extended { Extends out.old.items out.new.items }
    {
        out.extend_from_slice(&(self.greatest.len() as u16).to_be_bytes())?;
        out.extend_from_slice(self.greatest)?;
        out.extend_from_slice(&self.number.to_be_bytes())?;
        out.extend_from_slice(&self.digest.0)
    }
}
