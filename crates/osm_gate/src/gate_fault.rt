//! Why a connection is given up.

use byte_io::NotWritten;
use thiserror::Error;

/// Why a connection is given up. Its text is its code.
#[derive(Clone, Copy, Debug, PartialEq, Eq, Error)]
pub enum GateFault {
    /// G1: a read failed.
    #[error("G1")]
    Reader,
    /// G2: a write failed, or took nothing.
    #[error("G2")]
    Writer,
    /// G3: an allocation was refused.
    #[error("G3")]
    Memory,
    /// G4: 1,048,576 reads were made, and the connection didn't end.
    #[error("G4")]
    Endless,
}

impl From<NotWritten> for GateFault {
    ghost use Rattle.std.specs.Prelude.{◌≡◌};
    ghost use Rattle.osm_gate.specs.declared.gate_fault.GateFault.TheVariants.{Writer};

    ghost from_gives = { λ _ fault. fault ≡ Writer };

    fn from(_fault: NotWritten) -> GateFault {
        GateFault::Writer
    }
}
