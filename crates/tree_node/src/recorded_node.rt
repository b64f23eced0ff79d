//! A node that a recorder gave.

ghost use Rattle.std.specs.Option.{ForSome};
ghost use Rattle.std.specs.Prelude.{◌≡◌, IfSome, Ok};
ghost use Rattle.tree_node.specs.Fetches.{ReadsAs};
ghost use Rattle.tree_node.specs.NodeRefs.{node_read};
ghost use Rattle.tree_node.specs.Nodes.{AreBytes};
ghost use Rattle.tree_node.specs.internal.Reading.{node_at};

use crate::fault::NodeFault;
use crate::fetched::Fetched;
use crate::node::NodeRef;

/// A node that was used: its bytes, and the node of a tree that they spell, where they were read as one.
/// So a node that walks meet again and again is read once.
#[derive(Drop)]
pub(crate) struct RecordedNode<'a> {
    pub(crate) bytes: &'a [u8],
    node: Option<NodeRef<'a>>,
    ghost own: { ForSome node (λ found. AreBytes bytes.now × (node_at bytes.now ≡ Ok (node_read found))) },
}

impl<'a> RecordedNode<'a> {
    /// Bytes that weren't read as a node.
    pub(crate) fn unread(bytes: &'a [u8]) -> RecordedNode<'a>
        ensures { result.bytes ≡ bytes.entry }
    {
        RecordedNode { bytes, node: None }
    }

    /// Bytes with the node that was read of them. Where they are no node, they are as unread.
    pub(crate) fn with_read(
        bytes: &'a [u8],
        read: &Result<NodeRef<'a>, NodeFault>,
    ) -> RecordedNode<'a>
        requires { ReadsAs bytes.now read.now }
        ensures { result.bytes ≡ bytes.entry }
    {
        if let Ok(node) = read {
            return RecordedNode {
                bytes,
                node: Some(node.again()),
            };
        }
        RecordedNode::unread(bytes)
    }

    /// The bytes with the node that they spell, where they were read as one.
    pub(crate) fn fetched(&self) -> Option<Fetched<'a>>
        ensures { IfSome result (λ node. (node.bytes ≡ self.now.bytes) × ReadsAs node.bytes.now node.read) }
    {
        match &self.node {
            Some(node) => Some(Fetched {
                bytes: self.bytes,
                read: Ok(node.again()),
            }),
            None => None,
        }
    }
}
