//! Why no pack was written of a head's files.

ghost use Rattle.std.specs.Prelude.{◌≡◌};
ghost use Rattle.osm_pack_changes.specs.CompactFaults.{fault_of_command, fault_of_compact, status_of};
ghost use Rattle.osm_pack_changes.specs.declared.not_compacted.NotCompacted.TheVariants.{Memory};

use osm_commands::{CommandFault, Status};
use outside_shelf::Refused;
use pack_compact::CompactFault;
use std::alloc::AllocError;
use thiserror::Error;

/// Why the set that a head's files hold wasn't written as one pack. Its text is the line that the program prints on standard error.
#[derive(Clone, Copy, Debug, PartialEq, Eq, Error)]
pub enum NotCompacted {
    /// The files don't hold what they should, or the set has no pack. It is neither memory nor a device or the writer.
    #[error("{0}")]
    Files(CompactFault),
    /// An allocation was refused.
    #[error("no memory")]
    Memory,
    /// A file wasn't read, a store failed, or a writer failed or took nothing.
    #[error("device")]
    Device,
}

impl NotCompacted {
    /// How the program ends after it: `Failed` after memory, a device, and where the pack would be too long; `Refused` after all
    /// others.
    pub fn status(self) -> Status
        ensures { result ≡ status_of self }
    {
        match self {
            NotCompacted::Files(CompactFault::TooLong)
            | NotCompacted::Memory
            | NotCompacted::Device => Status::Failed,
            NotCompacted::Files(_) => Status::Refused,
        }
    }
}

impl From<CompactFault> for NotCompacted {
    ghost from_gives = { λ told fault. fault ≡ fault_of_compact told };

    fn from(told: CompactFault) -> NotCompacted {
        match told {
            CompactFault::Source(Refused::Memory) | CompactFault::Memory => NotCompacted::Memory,
            CompactFault::Source(Refused::Device)
            | CompactFault::Device
            | CompactFault::NotWritten => NotCompacted::Device,
            _ => NotCompacted::Files(told),
        }
    }
}

impl From<CommandFault> for NotCompacted {
    ghost from_gives = { λ told fault. fault ≡ fault_of_command told };

    /// A writer is refused by out of memory or by a device.
    fn from(told: CommandFault) -> NotCompacted {
        match told {
            CommandFault::Memory => NotCompacted::Memory,
            _ => NotCompacted::Device,
        }
    }
}

impl From<AllocError> for NotCompacted {
    ghost from_gives = { λ _ fault. fault ≡ Memory };

    fn from(_: AllocError) -> NotCompacted {
        NotCompacted::Memory
    }
}
