//! The leaf that is still open.

ghost use Rattle.std.specs.List.{AllByRecursion};
ghost use Rattle.std.specs.Prelude.{◌≡◌, ◌++◌, ◌∷◌, ◌≤◌, [], ℕ, List, IfOk, OnOk, length};
ghost use Rattle.tree_node.specs.NodeRefs.{bindings_of, number_of};
ghost use Rattle.tree_node.specs.Nodes.{Binding, Leaf};
ghost use Rattle.tree_node.specs.Trees.{FitsTree};
ghost use Rattle.tree_node.specs.declared.limits.TheConstants.{ITEM_LIMIT};
ghost use Rattle.tree_stream.specs.internal.Holding.{HoldsEntries, cut_entries, entry_total};
ghost use Rattle.tree_stream.specs.internal.Writing.{IsPut, States};

use crate::fault::WriterFault;
use crate::node_sum::NodeSum;
use crate::writer::NodeWriter;
use std::alloc::{AllocError, Global};
use tree_node::{Item, Tree, digest_of, write_leaf};

/// The entries that came after the last leaf that was written, at most 64. Its buffers are used again for the next leaf.
#[derive(Drop)]
pub(crate) struct OpenLeaf {
    /// The key and the value of each entry, one after the other.
    bytes: Vec<u8>,
    /// How long they are.
    lens: Vec<EntryLen>,
    /// The bytes of the node that was written last.
    node: Vec<u8>,
}

/// The lengths of an entry's key and value.
#[derive(Clone, Copy)]
pub(crate) struct EntryLen {
    key: usize,
    value: usize,
}

impl OpenLeaf {
    /// A leaf without entries. It takes no memory yet.
    pub(crate) fn new(alloc: Global) -> OpenLeaf
        ensures { HoldsEntries result [] }
    {
        OpenLeaf {
            bytes: Vec::new(alloc),
            lens: Vec::new(alloc),
            node: Vec::new(alloc),
        }
    }

    /// The number of its entries.
    pub(crate) fn len(&self) -> usize
        ensures { (entries : List Binding) → HoldsEntries self.now entries
            → result ≡ length entries }
    {
        self.lens.len()
    }

    /// Copies an entry to the end.
    pub(crate) fn push(&mut self, key: &[u8], value: &[u8]) -> Result<(), WriterFault>
        ensures { (entries : List Binding) → HoldsEntries self.old entries
            → OnOk result (HoldsEntries self.new
            (entries ++ record { key = key.now; value = value.now } ∷ [])) }
    {
        self.bytes.extend_from_slice(key)?;
        self.bytes.extend_from_slice(value)?;
        self.lens.push(EntryLen {
            key: key.len(),
            value: value.len(),
        })?;
        Ok(())
    }

    /// Writes the leaf of its entries, and leaves none.
    pub(crate) fn write<W: NodeWriter>(
        &mut self,
        alloc: Global,
        tree: Tree,
        writer: &mut W,
    ) -> Result<NodeSum, WriterFault>
        requires { (entries : List Binding) × HoldsEntries self.old entries
            × (length entries ≤ ITEM_LIMIT) × AllByRecursion FitsTree entries }
        ensures states { (entries : List Binding) → HoldsEntries self.old entries
            → IfOk result (States (Leaf (number_of tree) entries)) }
        ensures put { (entries : List Binding) → HoldsEntries self.old entries
            → OnOk result (IsPut (W.given writer.old) (W.given writer.new) 0
            (Leaf (number_of tree) entries)) }
        ensures left { OnOk result (HoldsEntries self.new []) }
    {
        let sum = self.write_node(alloc, tree, writer)?;
        self.bytes.clear();
        self.lens.clear();
        Ok(sum)
    }

    /// Writes the leaf of its entries.
    fn write_node<W: NodeWriter>(
        &mut self,
        alloc: Global,
        tree: Tree,
        writer: &mut W,
    ) -> Result<NodeSum, WriterFault>
        requires { (entries : List Binding) × HoldsEntries self.old entries
            × (length entries ≤ ITEM_LIMIT) × AllByRecursion FitsTree entries }
        ensures states { (entries : List Binding) → HoldsEntries self.old entries
            → IfOk result (States (Leaf (number_of tree) entries)) }
        ensures put { (entries : List Binding) → HoldsEntries self.old entries
            → OnOk result (IsPut (W.given writer.old) (W.given writer.new) 0
            (Leaf (number_of tree) entries)) }
    {
        let items = items_of(alloc, self.bytes.as_slice(), self.lens.as_slice())?;
        self.node.clear();
        write_leaf(tree, items.as_slice(), &mut self.node)?;
        writer.put(0, self.node.as_slice())?;
        Ok(NodeSum {
            number: items.len() as u64,
            digest: digest_of(self.node.as_slice()),
        })
    }
}

/// The entries with these lengths, one after the other in the bytes.
fn items_of<'a>(
    alloc: Global,
    bytes: &'a [u8],
    lens: &[EntryLen],
) -> Result<Vec<Item<'a>>, AllocError>
    requires { entry_total lens.now ≤ length bytes.now }
    ensures { IfOk result (λ items. bindings_of items.items ≡ cut_entries lens.now bytes.now) }
{
    let mut items = Vec::with_capacity(alloc, lens.len())?;
    let mut rest = bytes;
    for len in lens {
        let (key, after) = rest.split_at(len.key);
        let (value, after) = after.split_at(len.value);
        items.push(Item { key, value })?;
        rest = after;
    }
    Ok(items)
}
