//! Reading a node from its bytes.

ghost use Rattle.std.specs.Prelude.{◌≡◌, IfErr, IfOk, IsOkAnd};
ghost use Rattle.tree_node.specs.Faults.{IsFault};
ghost use Rattle.tree_node.specs.NodeRefs.{node_read, number_of};
ghost use Rattle.tree_node.specs.Nodes.{Node, Spells, tree_of};
ghost use Rattle.tree_node.specs.internal.Reading.{Gives, node_at};

use crate::children::Children;
use crate::entries::Entries;
use crate::fault::NodeFault;
use crate::limits::{ITEM_LIMIT, LEVEL_LIMIT};
use crate::tree::Tree;

/// The number of bytes in a line of the processor's cache.
const CACHE_LINE: usize = 64;

/// How many bytes of a node are prefetched at most.
const PREFETCH_LIMIT: usize = 65_536;

/// More than the bytes that `prefetch` adds up can come to, 2^18.
const SUM_LIMIT: u32 = 262_144;

/// A node as its bytes have it: keys and values are slices of them, and nothing is copied.
#[derive(Drop)]
pub enum NodeRef<'a> {
    /// A node with entries, at level 0.
    Leaf {
        /// The tree that the node belongs to.
        tree: Tree,
        /// 0 to 64 entries.
        entries: Entries<'a>,
    },
    /// A node with children, each a level below.
    Inner {
        /// The tree that the node belongs to.
        tree: Tree,
        /// From 1 to 63.
        level: u8,
        /// 1 to 64 children.
        children: Children<'a>,
    },
}

impl<'a> NodeRef<'a> {
    /// The node that these bytes spell, all of them (this project's form of nodes, docs/FORMATS.md).
    /// It takes no memory and is linear in the bytes.
    ///
    /// Of several faults the first one met from the left is told: a header of less than four bytes
    /// (N1), the tree number and the level (N5), the number of items (N3); then, item by item, an
    /// item that is cut short (N1), a child's number of entries (N3), a key that isn't above the one
    /// before it (N4); last, bytes after the items (N2).
    pub fn read(bytes: &'a [u8]) -> Result<NodeRef<'a>, NodeFault>
        // What is read is what the bytes spell.
        ensures found { IfOk result (λ n. Spells bytes.now (node_read n)) }
        // What the bytes spell is read.
        ensures only { (n : Node) → Spells bytes.now n → IsOkAnd result (λ r. node_read r ≡ n) }
        // What is refused has this fault first, and what has it is refused for it.
        ensures refused { IfErr result (λ fault. IsFault bytes.now fault) }
        ensures fault { (fault : NodeFault) → IsFault bytes.now fault → result ≡ Err fault }
    {
        NodeRef::read_fields(bytes)
    }

    /// The tree that the node belongs to.
    pub fn tree(&self) -> Tree
        ensures { number_of result ≡ tree_of (node_read self.now) }
    {
        match self {
            NodeRef::Leaf { tree, entries: _ } => *tree,
            NodeRef::Inner {
                tree,
                level: _,
                children: _,
            } => *tree,
        }
    }

    /// The same node once more, its items from where these stand.
    pub(crate) fn again(&self) -> NodeRef<'a>
        ensures { result ≡ self.now }
    {
        match self {
            NodeRef::Leaf { tree, entries } => NodeRef::Leaf {
                tree: *tree,
                entries: entries.again(),
            },
            NodeRef::Inner {
                tree,
                level,
                children,
            } => NodeRef::Inner {
                tree: *tree,
                level: *level,
                children: children.again(),
            },
        }
    }

    /// What `read` gives, by the definition that goes through the bytes from the left.
    #[tactic(auto, unfolding(crate::specs::internal::Reading::node_at))]
    fn read_fields(bytes: &'a [u8]) -> Result<NodeRef<'a>, NodeFault>
        ensures { Gives node_read result (node_at bytes.now) }
    {
        if bytes.len() < 4 {
            return Err(NodeFault::CutShort);
        }
        let (head, rest) = bytes.split_at(4);
        let tree = Tree::from_number(head[0])?;
        let level = head[1];
        if level > LEVEL_LIMIT {
            return Err(NodeFault::BadTreeOrLevel);
        }
        let count = u16::from_be_bytes([head[2], head[3]]);
        if usize::from(count) > ITEM_LIMIT || (level > 0 && count == 0) {
            return Err(NodeFault::BadCount);
        }
        // Brings the node into the cache. It adds 0, which keeps the compiler from leaving the reads out.
        let count = count + prefetch(rest);
        if level == 0 {
            let (entries, after) = Entries::read(count, rest)?;
            if !after.is_empty() {
                return Err(NodeFault::BytesAfter);
            }
            return Ok(NodeRef::Leaf { tree, entries });
        }
        let (children, after) = Children::read(count, rest)?;
        if !after.is_empty() {
            return Err(NodeFault::BytesAfter);
        }
        Ok(NodeRef::Inner {
            tree,
            level,
            children,
        })
    }
}

/// Prefetches a node's first 64 kibibytes, and gives 0: it reads one byte of each cache line, and divides their sum
/// by more than it can come to.
///
/// The start of an item is known only from the item before it. So without this call the cache lines of a node would be
/// loaded one after another; here they are loaded in parallel.
fn prefetch(bytes: &[u8]) -> u16
    ensures { result ≡ 0 }
{
    let mut sum: u32 = 0;
    let mut at = 0;
    while at < bytes.len() && at < PREFETCH_LIMIT {
        sum += u32::from(bytes[at]);
        at += CACHE_LINE;
    }
    (sum / SUM_LIMIT) as u16
}
