//! Why a pack isn't built.

ghost use Rattle.std.specs.Prelude.{◌≡◌};
ghost use Rattle.pack_build.specs.Faults.{fault_of_assembly, fault_of_entries};

use entry_sort::EntryFault;
use opl_codec::LoadFault;
use pack_assembly::AssemblyFault;
use thiserror::Error;

/// Why a pack isn't built.
#[derive(Clone, Copy, Debug, PartialEq, Eq, Error)]
pub enum BuildFault {
    /// The input holds no set of objects, its reader failed, or it never ended.
    #[error("{0}")]
    Load(LoadFault),
    /// A tree would have more than 2^29 entries.
    #[error("too many entries")]
    TooMany,
    /// Two different nodes have one digest.
    #[error("collision")]
    Clash,
    /// A record would have 2^32 bytes or more, or the pack more than 2^48.
    #[error("too long")]
    TooLong,
    /// Memory was refused.
    #[error("no memory")]
    Memory,
    /// The device of the runs or of the levels failed.
    #[error("the device failed")]
    Device,
    /// The writer failed or took nothing, or there was no memory for a node while the pack was written.
    #[error("the pack couldn't be written")]
    NotWritten,
}

impl From<EntryFault> for BuildFault {
    ghost from_gives = { λ fault told. told ≡ fault_of_entries fault };

    fn from(fault: EntryFault) -> BuildFault {
        match fault {
            EntryFault::Load(load) => BuildFault::Load(load),
            EntryFault::TooMany => BuildFault::TooMany,
            EntryFault::Memory => BuildFault::Memory,
            EntryFault::Device => BuildFault::Device,
        }
    }
}

impl From<AssemblyFault> for BuildFault {
    ghost from_gives = { λ fault told. told ≡ fault_of_assembly fault };

    fn from(fault: AssemblyFault) -> BuildFault {
        match fault {
            AssemblyFault::Clash => BuildFault::Clash,
            AssemblyFault::TooLong => BuildFault::TooLong,
            AssemblyFault::Memory => BuildFault::Memory,
            AssemblyFault::Device => BuildFault::Device,
            AssemblyFault::NotWritten => BuildFault::NotWritten,
        }
    }
}
