//! Why there is no answer.

ghost use Rattle.std.specs.Prelude.{◌≡◌};
ghost use Rattle.outside_proof.specs.declared.fault.OutsideFault.TheVariants.{Memory};

use outside_shelf::Refused;
use ql_eval::EvalFault;
use std::alloc::AllocError;
use thiserror::Error;

/// Why there is no answer, with its proof or without.
#[derive(Clone, Copy, Debug, PartialEq, Eq, Error)]
pub enum OutsideFault {
    /// More is to be done for the query than the budget has.
    #[error("too much work")]
    Work,
    /// An allocation was refused, to the shelf or for the answer.
    #[error("no memory")]
    Memory,
    /// The shelf gave no node where one was needed, for this reason, which is never memory.
    #[error("{0}")]
    Source(Refused),
    /// The nodes that were given aren't those of a publication: `E1` to `E4`, for another reason than memory or a node that
    /// wasn't given.
    #[error("{0}")]
    Evaluation(EvalFault),
    /// The nodes don't fit a proof: there are 2^32 or more, or one has 2^32 bytes or more. No publication has such nodes.
    #[error("too long for a proof")]
    TooLong,
}

impl From<AllocError> for OutsideFault {
    ghost from_gives = { λ _ fault. fault ≡ Memory };

    fn from(_: AllocError) -> OutsideFault {
        OutsideFault::Memory
    }
}
