//! The inner node of a level that is still open.

ghost use Rattle.std.specs.Prelude.{◌≡◌, ◌++◌, ◌∷◌, ◌≤◌, ◌<◌, [], ℕ, List, IfOk, IfSome, OnOk, length, sum_by};
ghost use Rattle.tree_node.specs.NodeRefs.{link_of, links_of, number_of};
ghost use Rattle.tree_node.specs.Nodes.{Inner, Link};
ghost use Rattle.tree_node.specs.declared.limits.TheConstants.{ITEM_LIMIT};
ghost use Rattle.tree_stream.specs.internal.Holding.{HoldsLinks, IsOnly, cut_links, link_total};
ghost use Rattle.tree_stream.specs.internal.Writing.{IsPut, States};
ghost use Rattle.tree_build.specs.internal.Building.{AreWithin};

use crate::fault::WriterFault;
use crate::node_sum::NodeSum;
use crate::writer::NodeWriter;
use std::alloc::{AllocError, Global};
use tree_node::{Child, Digest, Tree, digest_of, write_inner};

/// The items that came to a level after its last node that was written, at most 64. Its buffers are used again for the
/// next node.
#[derive(Drop)]
pub(crate) struct OpenLevel {
    /// The greatest key of each item, one after the other.
    keys: Vec<u8>,
    /// What else the items say.
    rows: Vec<Row>,
    /// The bytes of the node that was written last.
    node: Vec<u8>,
}

/// An item without its key.
#[derive(Clone, Copy)]
pub(crate) struct Row {
    /// The length of the greatest key below the child.
    len: usize,
    /// The number of entries below the child.
    number: u64,
    /// The child's digest.
    digest: Digest,
}

impl OpenLevel {
    /// A level without items. It takes no memory yet.
    pub(crate) fn new(alloc: Global) -> OpenLevel
        ensures { HoldsLinks result [] }
    {
        OpenLevel {
            keys: Vec::new(alloc),
            rows: Vec::new(alloc),
            node: Vec::new(alloc),
        }
    }

    /// The number of its items.
    pub(crate) fn len(&self) -> usize
        ensures { (links : List Link) → HoldsLinks self.now links → result ≡ length links }
    {
        self.rows.len()
    }

    /// The digest of its only item; none where it has no item or more than one.
    pub(crate) fn only(&self) -> Option<Digest>
        ensures { (links : List Link) → HoldsLinks self.now links → IsOnly result links }
    {
        match self.rows.as_slice() {
            [row] => Some(row.digest),
            _ => None,
        }
    }

    /// Copies an item to the end.
    pub(crate) fn push(&mut self, child: &Child<'_>) -> Result<(), WriterFault>
        ensures { (links : List Link) → HoldsLinks self.old links
            → OnOk result (HoldsLinks self.new (links ++ link_of child.now ∷ [])) }
    {
        self.keys.extend_from_slice(child.greatest)?;
        self.rows.push(Row {
            len: child.greatest.len(),
            number: child.number,
            digest: child.digest,
        })?;
        Ok(())
    }

    /// Writes the node of its items, as one of this level, and leaves none.
    pub(crate) fn write<W: NodeWriter>(
        &mut self,
        alloc: Global,
        tree: Tree,
        level: u8,
        writer: &mut W,
    ) -> Result<NodeSum, WriterFault>
        requires { (links : List Link) × HoldsLinks self.old links
            × (length links ≤ ITEM_LIMIT) × AreWithin links }
        ensures states { (links : List Link) → HoldsLinks self.old links
            → IfOk result (States (Inner (number_of tree) level links)) }
        ensures put { (links : List Link) → HoldsLinks self.old links
            → OnOk result (IsPut (W.given writer.old) (W.given writer.new) level
            (Inner (number_of tree) level links)) }
        ensures left { OnOk result (HoldsLinks self.new []) }
    {
        let sum = self.write_node(alloc, tree, level, writer)?;
        self.keys.clear();
        self.rows.clear();
        Ok(sum)
    }

    /// Writes the node of its items, as one of this level.
    fn write_node<W: NodeWriter>(
        &mut self,
        alloc: Global,
        tree: Tree,
        level: u8,
        writer: &mut W,
    ) -> Result<NodeSum, WriterFault>
        requires { (links : List Link) × HoldsLinks self.old links
            × (length links ≤ ITEM_LIMIT) × AreWithin links }
        ensures states { (links : List Link) → HoldsLinks self.old links
            → IfOk result (States (Inner (number_of tree) level links)) }
        ensures put { (links : List Link) → HoldsLinks self.old links
            → OnOk result (IsPut (W.given writer.old) (W.given writer.new) level
            (Inner (number_of tree) level links)) }
    {
        let children = children_of(alloc, self.keys.as_slice(), self.rows.as_slice())?;
        self.node.clear();
        write_inner(tree, level, children.as_slice(), &mut self.node)?;
        writer.put(level, self.node.as_slice())?;
        Ok(NodeSum {
            number: entries_below(children.as_slice()),
            digest: digest_of(self.node.as_slice()),
        })
    }
}

/// The items with these rows, whose keys are one after the other in the bytes.
fn children_of<'a>(
    alloc: Global,
    keys: &'a [u8],
    rows: &[Row],
) -> Result<Vec<Child<'a>>, AllocError>
    requires { link_total rows.now ≤ length keys.now }
    ensures { IfOk result (λ children. links_of children.items ≡ cut_links rows.now keys.now) }
{
    let mut children = Vec::with_capacity(alloc, rows.len())?;
    let mut rest = keys;
    for row in rows {
        let (greatest, after) = rest.split_at(row.len);
        children.push(Child {
            greatest,
            number: row.number,
            digest: row.digest,
        })?;
        rest = after;
    }
    Ok(children)
}

/// The number of entries below these children.
fn entries_below(children: &[Child<'_>]) -> u64
    requires { AreWithin (links_of children.now) }
    ensures { result ≡ sum_by (λ (link : Link). link.number) (links_of children.now) }
{
    let mut number = 0;
    for child in children {
        number += child.number;
    }
    number
}
