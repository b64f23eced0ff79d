//! Why a pack isn't written.

ghost use Rattle.std.specs.Prelude.{◌≡◌};
ghost use Rattle.pack_assembly.specs.Faults.{fault_of_refusal, fault_of_unwritten};
ghost use Rattle.pack_assembly.specs.declared.fault.AssemblyFault.TheVariants.{Memory};

use crate::refusal::Refusal;
use crate::unwritten::Unwritten;
use std::alloc::{AllocError, AllocFailed};
use thiserror::Error;

/// Why a pack isn't written.
#[derive(Clone, Copy, Debug, PartialEq, Eq, Error)]
pub enum AssemblyFault {
    /// Two different nodes have one digest.
    #[error("SHA-256 collision")]
    Clash,
    /// A record would have 2^32 bytes or more, or the pack more than 2^48.
    #[error("the pack is too long")]
    TooLong,
    /// Memory was refused, before anything was written.
    #[error("no memory")]
    Memory,
    /// The device of the levels or of the sorter failed, or gave back what it wasn't given.
    #[error("the device failed")]
    Device,
    /// The writer failed or took nothing, or there was no memory for a node while the pack was written.
    #[error("the pack couldn't be written")]
    NotWritten,
}

impl From<AllocError> for AssemblyFault {
    ghost from_gives = { λ _ fault. fault ≡ Memory };

    fn from(_error: AllocError) -> AssemblyFault {
        AssemblyFault::Memory
    }
}

impl<T: Drop> From<AllocFailed<T>> for AssemblyFault {
    ghost from_gives = { λ _ fault. fault ≡ Memory };

    fn from(_error: AllocFailed<T>) -> AssemblyFault {
        AssemblyFault::Memory
    }
}

impl From<Refusal> for AssemblyFault {
    ghost from_gives = { λ refusal fault. fault ≡ fault_of_refusal refusal };

    fn from(refusal: Refusal) -> AssemblyFault {
        match refusal {
            Refusal::Memory => AssemblyFault::Memory,
            Refusal::Device => AssemblyFault::Device,
        }
    }
}

impl From<Unwritten> for AssemblyFault {
    ghost from_gives = { λ unwritten fault. fault ≡ fault_of_unwritten unwritten };

    fn from(unwritten: Unwritten) -> AssemblyFault {
        match unwritten {
            Unwritten::Device => AssemblyFault::Device,
            Unwritten::NotWritten => AssemblyFault::NotWritten,
        }
    }
}
