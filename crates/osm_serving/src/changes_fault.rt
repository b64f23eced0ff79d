//! Why a change file isn't published.

ghost use Rattle.std.specs.Prelude.{◌≡◌};
ghost use Rattle.osm_serving.specs.ChangeFiles.{fault_of_announced, fault_of_apply, fault_of_command};
ghost use Rattle.osm_commands.specs.Faults.{fault_of_load};

use opl_codec::LoadFault;
use osm_commands::CommandFault;
use osm_index::{AnnouncedFault, ApplyFault};
use thiserror::Error;

/// Why a change file isn't published. Its text is the line that the server prints on standard error.
#[derive(Clone, Copy, Debug, PartialEq, Eq, Error)]
pub enum ChangesFault {
    /// The file holds no changes, or its reader never ended: `O9 line 1 byte 8`.
    #[error("{0}")]
    Opl(LoadFault),
    /// The changes can't be made of what is in force: `I2 w10`.
    #[error("{0}")]
    Apply(ApplyFault),
    /// I6: the changes give another root than the one that the file announces, or it announces none and has to. What is no
    /// root's digits is another root.
    #[error("I6")]
    OtherRoot,
    /// An allocation was refused.
    #[error("no memory")]
    Memory,
    /// The file can't be opened, or a read of it failed.
    #[error("device")]
    Device,
}

impl From<CommandFault> for ChangesFault {
    ghost from_gives = { λ refused fault. fault ≡ fault_of_command refused };

    /// A source or a reader is refused by out of memory, by a device, or by what the file says.
    fn from(refused: CommandFault) -> ChangesFault {
        match refused {
            CommandFault::Opl(load) => ChangesFault::Opl(load),
            CommandFault::Memory => ChangesFault::Memory,
            _ => ChangesFault::Device,
        }
    }
}

impl From<LoadFault> for ChangesFault {
    ghost from_gives = { λ load fault. fault ≡ fault_of_command (fault_of_load load) };

    fn from(load: LoadFault) -> ChangesFault {
        ChangesFault::from(CommandFault::from(load))
    }
}

impl From<ApplyFault> for ChangesFault {
    ghost from_gives = { λ refused fault. fault ≡ fault_of_apply refused };

    fn from(refused: ApplyFault) -> ChangesFault {
        match refused {
            ApplyFault::Memory => ChangesFault::Memory,
            _ => ChangesFault::Apply(refused),
        }
    }
}

impl From<AnnouncedFault> for ChangesFault {
    ghost from_gives = { λ refused fault. fault ≡ fault_of_announced refused };

    fn from(refused: AnnouncedFault) -> ChangesFault {
        match refused {
            AnnouncedFault::Apply(fault) => ChangesFault::from(fault),
            AnnouncedFault::OtherRoot => ChangesFault::OtherRoot,
        }
    }
}
