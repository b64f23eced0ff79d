//! Why a file isn't opened as a pack.

ghost use Rattle.std.specs.Prelude.{◌≡◌};
ghost use Rattle.node_pack.specs.Faults.{pack_fault_of};
ghost use Rattle.node_pack.specs.declared.fault.PackFault.TheVariants.{Memory};

use crate::read_at::ReadFault;
use std::alloc::{AllocError, AllocFailed};
use thiserror::Error;

/// Why a file isn't opened as a pack. Of several faults the first is told.
#[derive(Clone, Copy, Debug, PartialEq, Eq, Error)]
pub enum PackFault {
    /// The file doesn't begin with the four bytes of a pack.
    #[error("not a pack")]
    NotAPack,
    /// The pack is of another version than 1, or its two reserved bytes aren't zero.
    #[error("a pack of another version")]
    OtherVersion,
    /// The file ends within the header, or has fewer bytes than the header states.
    #[error("a pack that is cut short")]
    Cut,
    /// The file has more bytes than the header states.
    #[error("bytes after the pack")]
    BytesAfter,
    /// The device failed.
    #[error("the device failed")]
    Device,
    /// Memory was refused.
    #[error("no memory")]
    Memory,
}

impl From<ReadFault> for PackFault {
    ghost from_gives = { λ fault told. told ≡ pack_fault_of fault };

    fn from(fault: ReadFault) -> PackFault {
        match fault {
            ReadFault::Device => PackFault::Device,
            ReadFault::Memory => PackFault::Memory,
        }
    }
}

impl From<AllocError> for PackFault {
    ghost from_gives = { λ _ told. told ≡ Memory };

    fn from(_error: AllocError) -> PackFault {
        PackFault::Memory
    }
}

impl<T: Drop> From<AllocFailed<T>> for PackFault {
    ghost from_gives = { λ _ told. told ≡ Memory };

    fn from(_error: AllocFailed<T>) -> PackFault {
        PackFault::Memory
    }
}
