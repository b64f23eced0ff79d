//! Why records aren't sorted.

ghost use Rattle.external_sort.specs.declared.fault.SortFault.TheVariants.{Device, Memory};
ghost use Rattle.std.specs.Prelude.{◌≡◌};

use crate::run_store::StoreFault;
use std::alloc::{AllocError, AllocFailed};
use thiserror::Error;

/// Why records aren't sorted.
#[derive(Clone, Copy, Debug, PartialEq, Eq, Error)]
pub enum SortFault {
    /// Memory was refused.
    #[error("no memory")]
    Memory,
    /// The store refused a call.
    #[error("device")]
    Device,
    /// A key has 2^16 bytes or more, or a value 2^32 bytes or more.
    #[error("record too long")]
    TooLong,
}

impl From<StoreFault> for SortFault {
    ghost from_gives = { λ _ fault. fault ≡ Device };

    fn from(_error: StoreFault) -> SortFault {
        SortFault::Device
    }
}

impl From<AllocError> for SortFault {
    ghost from_gives = { λ _ fault. fault ≡ Memory };

    fn from(_error: AllocError) -> SortFault {
        SortFault::Memory
    }
}

impl<T: Drop> From<AllocFailed<T>> for SortFault {
    ghost from_gives = { λ _ fault. fault ≡ Memory };

    fn from(_error: AllocFailed<T>) -> SortFault {
        SortFault::Memory
    }
}
