//! Why a publication that a shelf holds wasn't changed.

ghost use Rattle.std.specs.Prelude.{◌≡◌};
ghost use Rattle.osm_index.specs.declared.apply_fault.ApplyFault.TheVariants.{Memory};
ghost use Rattle.osm_index.specs.declared.update_fault.UpdateFault.TheVariants.{Apply};
ghost use Rattle.osm_index.specs.internal.Updates.{told_of};

use crate::apply_fault::ApplyFault;
use std::alloc::{AllocError, AllocFailed};
use thiserror::Error;
use tree_build::RebuildFault;

/// Why a publication that a shelf holds wasn't changed. Its text is its code, and for the changes that of `ApplyFault`.
#[derive(Clone, Copy, Debug, PartialEq, Eq, Error)]
pub enum UpdateFault {
    /// The changes are refused, or memory, of the call or of the shelf.
    #[error("{0}")]
    Apply(ApplyFault),
    /// The shelf didn't give a node that is needed.
    #[error("missing node")]
    Missing,
    /// What the shelf gave is no tree of a publication.
    #[error("no tree")]
    NoTree,
}

impl From<ApplyFault> for UpdateFault {
    ghost from_gives = { λ fault told. told ≡ Apply fault };

    fn from(fault: ApplyFault) -> UpdateFault {
        UpdateFault::Apply(fault)
    }
}

impl From<RebuildFault> for UpdateFault {
    ghost from_gives = { λ fault told. told ≡ told_of fault };

    fn from(fault: RebuildFault) -> UpdateFault {
        match fault {
            RebuildFault::Missing => UpdateFault::Missing,
            RebuildFault::NoTree => UpdateFault::NoTree,
            RebuildFault::Memory => UpdateFault::Apply(ApplyFault::Memory),
        }
    }
}

impl From<AllocError> for UpdateFault {
    ghost from_gives = { λ _ told. told ≡ Apply Memory };

    fn from(_error: AllocError) -> UpdateFault {
        UpdateFault::Apply(ApplyFault::Memory)
    }
}

impl<T: Drop> From<AllocFailed<T>> for UpdateFault {
    ghost from_gives = { λ _ told. told ≡ Apply Memory };

    fn from(_error: AllocFailed<T>) -> UpdateFault {
        UpdateFault::Apply(ApplyFault::Memory)
    }
}
