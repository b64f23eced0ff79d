//! Why a set has no snapshot.

ghost use Rattle.std.specs.Prelude.{◌≡◌};
ghost use Rattle.osm_index.specs.declared.fault.IndexFault.TheVariants.{Memory};

use std::alloc::AllocError;
use thiserror::Error;

/// Why a set of objects has no snapshot.
#[derive(Clone, Copy, Debug, PartialEq, Eq, Error)]
pub enum IndexFault {
    /// I1: two different nodes have one digest.
    #[error("I1")]
    Clash,
    /// I4: a tree would have more than 2^29 entries.
    #[error("I4")]
    TooMany,
    /// Memory was refused.
    #[error("no memory")]
    Memory,
}

impl From<AllocError> for IndexFault {
    ghost from_gives = { λ _ fault. fault ≡ Memory };

    fn from(_error: AllocError) -> IndexFault {
        IndexFault::Memory
    }
}
