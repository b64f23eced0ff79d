//! Why bytes aren't read as a proof.

ghost use Rattle.std.specs.Prelude.{◌≡◌};
ghost use Rattle.osm_prove.specs.declared.proof_fault.ProofFault.TheVariants.{Memory};

use std::alloc::AllocFailed;
use thiserror::Error;

/// Why bytes aren't read as a proof. Its text is its code.
#[derive(Clone, Copy, Debug, PartialEq, Eq, Error)]
pub enum ProofFault {
    /// P1: the bytes don't have the form of a proof.
    #[error("P1")]
    Malformed,
    /// P2: the digests of the nodes don't strictly rise.
    #[error("P2")]
    NotRising,
    /// An allocation was refused.
    #[error("no memory")]
    Memory,
}

impl<T: Drop> From<AllocFailed<T>> for ProofFault {
    ghost from_gives = { λ _ fault. fault ≡ Memory };

    fn from(_: AllocFailed<T>) -> ProofFault {
        ProofFault::Memory
    }
}
