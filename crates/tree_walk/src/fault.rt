//! Why a walk was refused.

ghost use Rattle.std.specs.Prelude.{◌≡◌};
ghost use Rattle.tree_walk.specs.declared.fault.WalkFault.TheVariants.{Memory};
ghost use Rattle.tree_walk.specs.Refusals.{fault_of_shelf};

use std::alloc::{AllocError, AllocFailed};
use thiserror::Error;
use tree_node::{NodeFault, ShelfFault};

/// Why a walk was refused. Its text is its code, from `V1` to `V4`.
#[derive(Clone, Copy, Debug, PartialEq, Eq, Error)]
pub enum WalkFault {
    /// V1: the shelf holds no node with a digest that the walk needs.
    #[error("V1")]
    Missing,
    /// V2: what the shelf gave isn't of a node's form, by this fault (N1 to N5).
    #[error("V2")]
    Malformed(NodeFault),
    /// V3: a node of another tree, or a child whose level isn't its parent's less one.
    #[error("V3")]
    WrongTreeOrLevel,
    /// V4: a child that isn't as its parent states: a key that isn't above its left bound, another
    /// greatest key, or another number of entries.
    #[error("V4")]
    Disagrees,
    /// Memory for what was found, or on the shelf, was refused.
    #[error("no memory")]
    Memory,
}

impl From<ShelfFault> for WalkFault {
    ghost from_gives = { λ shelf fault. fault ≡ fault_of_shelf shelf };

    fn from(fault: ShelfFault) -> WalkFault {
        match fault {
            ShelfFault::Missing => WalkFault::Missing,
            ShelfFault::Memory => WalkFault::Memory,
        }
    }
}

impl From<AllocError> for WalkFault {
    ghost from_gives = { λ _ fault. fault ≡ Memory };

    fn from(_error: AllocError) -> WalkFault {
        WalkFault::Memory
    }
}

impl<T: Drop> From<AllocFailed<T>> for WalkFault {
    ghost from_gives = { λ _ fault. fault ≡ Memory };

    fn from(_error: AllocFailed<T>) -> WalkFault {
        WalkFault::Memory
    }
}
