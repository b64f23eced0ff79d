//! A node that a shelf gave to be read.

use crate::fault::NodeFault;
use crate::node::NodeRef;

/// A node that a shelf gave: its bytes, and what reading them gave.
#[derive(Drop)]
pub struct Fetched<'a> {
    /// The bytes, which may be no node of a tree.
    pub bytes: &'a [u8],
    /// What `NodeRef::read` gives of them.
    pub read: Result<NodeRef<'a>, NodeFault>,
}
