//! Where an outside shelf gets bytes.

use std::alloc::{AllocError, AllocFailed};
use thiserror::Error;
use tree_node::Digest;

/// Why a source gave no node.
#[derive(Clone, Copy, Debug, PartialEq, Eq, Error)]
pub enum SourceFault {
    /// The source has no node with this digest.
    #[error("no such node")]
    Absent,
    /// The device or the connection failed.
    #[error("the device failed")]
    Device,
    /// Memory was refused.
    #[error("no memory")]
    Memory,
}

impl From<AllocError> for SourceFault {
    fn from(_error: AllocError) -> SourceFault {
        SourceFault::Memory
    }
}

impl<T: Drop> From<AllocFailed<T>> for SourceFault {
    fn from(_error: AllocFailed<T>) -> SourceFault {
        SourceFault::Memory
    }
}

/// Gives bytes by their digest. Nothing is promised of what it gives: it may be wrong, and it may be another the next
/// time.
pub trait NodeSource {
    /// Appends the node with this digest to `into`, or tells why it can't. A node that is longer than `at_most` bytes isn't
    /// wanted: it is enough to append one byte more than that. What was appended before a fault counts as read.
    fn read_node(
        &mut self,
        key: &Digest,
        at_most: usize,
        into: &mut Vec<u8>,
    ) -> Result<(), SourceFault>;

    /// A hint: the entries of the tree with this top whose keys are from `lo` to `hi` will be asked for.
    fn announce(&mut self, top: &Digest, lo: &[u8], hi: &[u8]);
}
