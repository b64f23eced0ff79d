//! Why no head is read.

ghost use Rattle.std.specs.Prelude.{◌≡◌};
ghost use Rattle.pack_head.specs.declared.fault.HeadFault.TheVariants.{Memory};

use std::alloc::{AllocError, AllocFailed};
use thiserror::Error;

/// Why no head is read.
#[derive(Clone, Copy, Debug, PartialEq, Eq, Error)]
pub enum HeadFault {
    /// The line with this number, from 1, is the first one that is wrong or missing.
    #[error("line {0} of the head is wrong")]
    Line(u32),
    /// Memory was refused.
    #[error("no memory")]
    Memory,
}

impl From<AllocError> for HeadFault {
    ghost from_gives = { λ _ told. told ≡ Memory };

    fn from(_error: AllocError) -> HeadFault {
        HeadFault::Memory
    }
}

impl<T: Drop> From<AllocFailed<T>> for HeadFault {
    ghost from_gives = { λ _ told. told ≡ Memory };

    fn from(_error: AllocFailed<T>) -> HeadFault {
        HeadFault::Memory
    }
}
