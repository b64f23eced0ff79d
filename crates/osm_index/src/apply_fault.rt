//! Why changes of a set are refused.

ghost use Rattle.osm_index.specs.declared.apply_fault.ApplyFault.TheVariants.{Memory};
ghost use Rattle.std.specs.Prelude.{◌≡◌};

use osm_model::Ref;
use std::alloc::{AllocError, AllocFailed};
use thiserror::Error;

/// Why changes of a snapshot's set are refused. Its text is the code, and for I3 and I2 the object, as
/// `I3 n5`.
#[derive(Clone, Copy, Debug, PartialEq, Eq, Error)]
pub enum ApplyFault {
    /// I5: no sequence comes after that of the set: it is 2^64 - 1, or the set is of the first edition, which has none.
    #[error("I5")]
    LastSequence,
    /// I3: an earlier change is of the same object.
    #[error("I3 {0}")]
    ChangedTwice(Ref),
    /// I2: the object to delete isn't in the set.
    #[error("I2 {0}")]
    NotThere(Ref),
    /// I4: a tree would have more than 2^29 entries.
    #[error("I4")]
    TooMany,
    /// I1: two different nodes have one digest.
    #[error("I1")]
    Clash,
    /// Memory was refused.
    #[error("no memory")]
    Memory,
}

impl From<AllocError> for ApplyFault {
    ghost from_gives = { λ _ fault. fault ≡ Memory };

    fn from(_error: AllocError) -> ApplyFault {
        ApplyFault::Memory
    }
}

impl<T: Drop> From<AllocFailed<T>> for ApplyFault {
    ghost from_gives = { λ _ fault. fault ≡ Memory };

    fn from(_error: AllocFailed<T>) -> ApplyFault {
        ApplyFault::Memory
    }
}
