//! Why there is no verdict.

use std::alloc::AllocError;
use thiserror::Error;

/// Why there is no verdict within a budget. Its text is what the program prints.
#[derive(Clone, Copy, Debug, PartialEq, Eq, Error)]
pub enum CheckFault {
    /// An allocation was refused.
    #[error("no memory")]
    Memory,
    /// More is to be done for the query than the budget has.
    #[error("no work")]
    Work,
}

impl From<AllocError> for CheckFault {
    ghost use Rattle.std.specs.Prelude.{◌≡◌};
    ghost use Rattle.osm_check.specs.declared.check_fault.CheckFault.TheVariants.{Memory};

    ghost from_gives = { λ _ fault. fault ≡ Memory };

    fn from(_: AllocError) -> CheckFault {
        CheckFault::Memory
    }
}
