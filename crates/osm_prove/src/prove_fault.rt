//! Why there is no answer.

ghost use Rattle.std.specs.Prelude.{◌≡◌};
ghost use Rattle.osm_prove.specs.Refusals.{refusal_of};
ghost use Rattle.osm_prove.specs.declared.prove_fault.ProveFault.TheVariants.{Memory};

use ql_syntax::{QlCause, QlFault};
use std::alloc::AllocError;
use thiserror::Error;

/// Why there is no answer, with its proof or without.
#[derive(Clone, Copy, Debug, PartialEq, Eq, Error)]
pub enum ProveFault {
    /// The query doesn't read: `Q11 byte 7`.
    #[error("{0}")]
    Query(QlFault),
    /// An allocation was refused.
    #[error("no memory")]
    Memory,
    /// More is to be done for the query than the budget has.
    #[error("too much work")]
    Work,
}

impl From<AllocError> for ProveFault {
    ghost from_gives = { λ _ fault. fault ≡ Memory };

    fn from(_: AllocError) -> ProveFault {
        ProveFault::Memory
    }
}

impl From<QlFault> for ProveFault {
    ghost from_gives = { λ refused fault. fault ≡ refusal_of refused };

    /// Out of memory stays out of memory; else the query is refused.
    fn from(refused: QlFault) -> ProveFault {
        match refused.cause {
            QlCause::Memory => ProveFault::Memory,
            _ => ProveFault::Query(refused),
        }
    }
}
