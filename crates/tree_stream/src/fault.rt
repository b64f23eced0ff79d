//! Why a tree goes on no further.

ghost use Rattle.std.specs.Prelude.{◌≡◌};
ghost use Rattle.tree_stream.specs.Faults.{stream_fault_of};
ghost use Rattle.tree_stream.specs.declared.fault.StreamFault.TheVariants as streams;
ghost use Rattle.tree_stream.specs.declared.fault.WriterFault.TheVariants as writers;

use std::alloc::{AllocError, AllocFailed};
use thiserror::Error;

/// Why a node was not written.
#[derive(Clone, Copy, Debug, PartialEq, Eq, Error)]
pub enum WriterFault {
    /// Memory was refused.
    #[error("no memory")]
    Memory,
    /// What the nodes are written to failed.
    #[error("the device failed")]
    Device,
}

impl From<AllocError> for WriterFault {
    ghost from_gives = { λ _ fault. fault ≡ writers.Memory };

    fn from(_error: AllocError) -> WriterFault {
        WriterFault::Memory
    }
}

impl<T: Drop> From<AllocFailed<T>> for WriterFault {
    ghost from_gives = { λ _ fault. fault ≡ writers.Memory };

    fn from(_error: AllocFailed<T>) -> WriterFault {
        WriterFault::Memory
    }
}

/// Why an entry was not taken.
#[derive(Clone, Copy, Debug, PartialEq, Eq, Error)]
pub enum StreamFault {
    /// The key isn't above that of the entry before.
    #[error("the keys don't rise")]
    NotRising,
    /// The key has more than 8,203 bytes, or the value more than 2^24.
    #[error("an entry is too long")]
    TooLong,
    /// There are 2^29 entries already.
    #[error("too many entries")]
    TooMany,
    /// Memory was refused.
    #[error("no memory")]
    Memory,
    /// What the nodes are written to failed.
    #[error("the device failed")]
    Device,
}

impl From<WriterFault> for StreamFault {
    ghost from_gives = { λ fault told. told ≡ stream_fault_of fault };

    fn from(fault: WriterFault) -> StreamFault {
        match fault {
            WriterFault::Memory => StreamFault::Memory,
            WriterFault::Device => StreamFault::Device,
        }
    }
}

impl From<AllocError> for StreamFault {
    ghost from_gives = { λ _ fault. fault ≡ streams.Memory };

    fn from(_error: AllocError) -> StreamFault {
        StreamFault::Memory
    }
}
