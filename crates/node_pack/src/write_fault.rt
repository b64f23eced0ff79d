//! Why a pack isn't written.

ghost use Rattle.std.specs.Prelude.{◌≡◌};
ghost use Rattle.node_pack.specs.Faults.{write_fault_of};
ghost use Rattle.node_pack.specs.declared.write_fault.WriteFault.TheVariants.{Memory, NotWritten};

use byte_io::NotWritten;
use std::alloc::{AllocError, AllocFailed};
use thiserror::Error;
use tree_node::ShelfFault;

/// Why a pack or a further file isn't written.
#[derive(Clone, Copy, Debug, PartialEq, Eq, Error)]
pub enum WriteFault {
    /// The shelf holds no node with a digest that is referred to; for a further file, a child has no place, there or earlier.
    #[error("a node is missing")]
    Missing,
    /// A node is not what refers to it says: the root is no manifest's, a top is no node of its tree, or a child is no node of
    /// its parent's tree one level below. For a further file, a node is neither a node of a tree nor a manifest, has an earlier
    /// place or the digest of another one, or none has the root.
    #[error("a malformed node")]
    Malformed,
    /// A record would have 2^32 bytes or more, or the file more than 2^48.
    #[error("the pack is too long")]
    TooLong,
    /// Memory was refused.
    #[error("no memory")]
    Memory,
    /// The writer failed, or took nothing.
    #[error("the device failed")]
    NotWritten,
}

impl From<ShelfFault> for WriteFault {
    ghost from_gives = { λ fault told. told ≡ write_fault_of fault };

    fn from(fault: ShelfFault) -> WriteFault {
        match fault {
            ShelfFault::Missing => WriteFault::Missing,
            ShelfFault::Memory => WriteFault::Memory,
        }
    }
}

impl From<AllocError> for WriteFault {
    ghost from_gives = { λ _ told. told ≡ Memory };

    fn from(_error: AllocError) -> WriteFault {
        WriteFault::Memory
    }
}

impl<T: Drop> From<AllocFailed<T>> for WriteFault {
    ghost from_gives = { λ _ told. told ≡ Memory };

    fn from(_error: AllocFailed<T>) -> WriteFault {
        WriteFault::Memory
    }
}

impl From<NotWritten> for WriteFault {
    ghost from_gives = { λ _ told. told ≡ NotWritten };

    fn from(_fault: NotWritten) -> WriteFault {
        WriteFault::NotWritten
    }
}
