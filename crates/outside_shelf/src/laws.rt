//! What the types of values say.

ghost use Rattle.tree_node.specs.Nodes.{AreBytes};

/// The items of a slice of bytes are bytes. There is nothing to do when it runs.
pub fn bytes_law(_bytes: &[u8])
    ensures { AreBytes _bytes.now }
{}
