//! Why a tree was not built.

ghost use Rattle.tree_build.specs.Refusals.{fault_of_put};
ghost use Rattle.tree_build.specs.declared.fault.BuildFault.TheVariants.{Memory};
ghost use Rattle.std.specs.Prelude.{◌≡◌};

use std::alloc::{AllocError, AllocFailed};
use thiserror::Error;
use tree_node::PutFault;

/// Why a tree was not built.
#[derive(Clone, Copy, Debug, PartialEq, Eq, Error)]
pub enum BuildFault {
    /// N6: a node of the tree has the digest of another node, of the tree or of the stock.
    #[error("N6")]
    Clash,
    /// Memory for a node, or to hold it, was refused.
    #[error("no memory")]
    Memory,
}

impl From<PutFault> for BuildFault {
    ghost from_gives = { λ put fault. fault ≡ fault_of_put put };

    fn from(fault: PutFault) -> BuildFault {
        match fault {
            PutFault::Clash => BuildFault::Clash,
            PutFault::Memory => BuildFault::Memory,
        }
    }
}

impl From<AllocError> for BuildFault {
    ghost from_gives = { λ _ fault. fault ≡ Memory };

    fn from(_error: AllocError) -> BuildFault {
        BuildFault::Memory
    }
}

impl<T: Drop> From<AllocFailed<T>> for BuildFault {
    ghost from_gives = { λ _ fault. fault ≡ Memory };

    fn from(_error: AllocFailed<T>) -> BuildFault {
        BuildFault::Memory
    }
}
