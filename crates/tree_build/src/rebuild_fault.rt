//! Why a tree was not rebuilt.

ghost use Rattle.std.specs.Prelude.{◌≡◌};
ghost use Rattle.tree_build.specs.declared.rebuild_fault.RebuildFault.TheVariants.{Memory};

use std::alloc::{AllocError, AllocFailed};
use thiserror::Error;

/// Why a tree was not rebuilt.
#[derive(Clone, Copy, Debug, PartialEq, Eq, Error)]
pub enum RebuildFault {
    /// The shelf didn't give a node that is needed.
    #[error("missing node")]
    Missing,
    /// What the shelf gave is no tree: bytes that are no node, a node that is no child of the one that names it, or more
    /// entries than a tree may have. Or the keys of the changes don't rise.
    #[error("no tree")]
    NoTree,
    /// Memory was refused, of the call or of the shelf.
    #[error("no memory")]
    Memory,
}

impl From<AllocError> for RebuildFault {
    ghost from_gives = { λ _ fault. fault ≡ Memory };

    fn from(_error: AllocError) -> RebuildFault {
        RebuildFault::Memory
    }
}

impl<T: Drop> From<AllocFailed<T>> for RebuildFault {
    ghost from_gives = { λ _ fault. fault ≡ Memory };

    fn from(_error: AllocFailed<T>) -> RebuildFault {
        RebuildFault::Memory
    }
}
