//! Why changes weren't added.

ghost use Rattle.std.specs.Prelude.{◌≡◌};
ghost use Rattle.osm_pack_changes.specs.Faults.{fault_of_added, fault_of_command, fault_of_load, status_of};
ghost use Rattle.osm_pack_changes.specs.declared.not_added.NotAdded.TheVariants.{Memory};

use node_pack::WriteFault;
use opl_codec::{LoadFault, OplCause};
use osm_commands::{CommandFault, Status};
use osm_index::ApplyFault;
use outside_shelf::Refused;
use pack_update::AddFault;
use std::alloc::AllocError;
use thiserror::Error;

/// Why changes weren't added to a set whose nodes stand in files. Its text is the line that the program prints on standard error.
#[derive(Clone, Copy, Debug, PartialEq, Eq, Error)]
pub enum NotAdded {
    /// The file holds no changes, or its reader never ended: `O9 line 1 byte 8`.
    #[error("{0}")]
    Opl(LoadFault),
    /// The head names as many files as it can, 65,535.
    #[error("too many files")]
    ManyFiles,
    /// A head can't have this name for the new file.
    #[error("a name that a head can't have")]
    Name,
    /// The changes are refused (`I2 w10`), the files don't hold what they should, or the new file would be too long. It is neither
    /// memory nor the device or the writer.
    #[error("{0}")]
    Files(AddFault),
    /// I6: the changes give another root than the one that their file announces. What is no root's digits is another root.
    #[error("I6")]
    OtherRoot,
    /// An allocation was refused.
    #[error("no memory")]
    Memory,
    /// A file wasn't read, or a writer failed or took nothing.
    #[error("device")]
    Device,
}

impl NotAdded {
    /// How the program ends after it: `Failed` after memory, a device, and where the new file would be too long; `Refused` after all
    /// others.
    pub fn status(self) -> Status
        ensures { result ≡ status_of self }
    {
        match self {
            NotAdded::Files(AddFault::Write(WriteFault::TooLong))
            | NotAdded::Memory
            | NotAdded::Device => Status::Failed,
            NotAdded::Opl(_)
            | NotAdded::ManyFiles
            | NotAdded::Name
            | NotAdded::Files(_)
            | NotAdded::OtherRoot => Status::Refused,
        }
    }
}

impl From<LoadFault> for NotAdded {
    ghost from_gives = { λ load fault. fault ≡ fault_of_load load };

    /// A reader that failed is a device, and out of memory stays out of memory; else the file is refused.
    fn from(load: LoadFault) -> NotAdded {
        match load.fault.cause {
            OplCause::ReaderFailed => NotAdded::Device,
            OplCause::Memory => NotAdded::Memory,
            _ => NotAdded::Opl(load),
        }
    }
}

impl From<AddFault> for NotAdded {
    ghost from_gives = { λ added fault. fault ≡ fault_of_added added };

    fn from(added: AddFault) -> NotAdded {
        match added {
            AddFault::Source(Refused::Memory)
            | AddFault::Apply(ApplyFault::Memory)
            | AddFault::Write(WriteFault::Memory) => NotAdded::Memory,
            AddFault::Source(Refused::Device) | AddFault::Write(WriteFault::NotWritten) => {
                NotAdded::Device
            }
            _ => NotAdded::Files(added),
        }
    }
}

impl From<CommandFault> for NotAdded {
    ghost from_gives = { λ told fault. fault ≡ fault_of_command told };

    /// A writer is refused by out of memory or by a device.
    fn from(told: CommandFault) -> NotAdded {
        match told {
            CommandFault::Memory => NotAdded::Memory,
            _ => NotAdded::Device,
        }
    }
}

impl From<AllocError> for NotAdded {
    ghost from_gives = { λ _ fault. fault ≡ Memory };

    fn from(_: AllocError) -> NotAdded {
        NotAdded::Memory
    }
}
