//! Why a command isn't carried out.

ghost use Rattle.std.specs.Prelude.{◌≡◌};
ghost use Rattle.osm_commands.specs.Faults.{fault_of_apply, fault_of_check, fault_of_index, fault_of_load, fault_of_prove, status_of};
ghost use Rattle.osm_commands.specs.declared.command_fault.CommandFault.TheVariants.{Memory};

use crate::status::Status;
use opl_codec::{LoadFault, OplCause};
use osm_check::CheckFault;
use osm_index::{ApplyFault, IndexFault};
use osm_prove::ProveFault;
use ql_syntax::QlFault;
use std::alloc::AllocError;
use thiserror::Error;

/// Why a command isn't carried out. Its text is the line that the program prints on standard error.
#[derive(Clone, Copy, Debug, PartialEq, Eq, Error)]
pub enum CommandFault {
    /// The input holds no set of objects, or its reader never ended: `O9 line 1 byte 8`.
    #[error("{0}")]
    Opl(LoadFault),
    /// The query doesn't read: `Q2 byte 6`.
    #[error("{0}")]
    Query(QlFault),
    /// The file of a query, an answer or a proof was read 2^32 times without an end.
    #[error("O15")]
    Endless,
    /// The file of an answer or a proof has more bytes than the limit that was given.
    #[error("too large")]
    TooLarge,
    /// More is to be done for the query than the budget has.
    #[error("no work")]
    Work,
    /// Two different nodes of the set's trees have one digest.
    #[error("I1")]
    Clash,
    /// A tree of the set would have more than 2^29 entries.
    #[error("I4")]
    TooMany,
    /// The changes can't be made of the set: `I2 w10`.
    #[error("{0}")]
    Apply(ApplyFault),
    /// An allocation was refused.
    #[error("no memory")]
    Memory,
    /// A reader failed, or a writer failed or took nothing.
    #[error("device")]
    Device,
}

impl CommandFault {
    /// How the program ends after this fault.
    pub fn status(self) -> Status
        ensures { result ≡ status_of self }
    {
        match self {
            CommandFault::Opl(_)
            | CommandFault::Query(_)
            | CommandFault::Endless
            | CommandFault::Clash
            | CommandFault::TooMany
            | CommandFault::Apply(_) => Status::Refused,
            CommandFault::TooLarge
            | CommandFault::Work
            | CommandFault::Memory
            | CommandFault::Device => Status::Failed,
        }
    }
}

impl From<LoadFault> for CommandFault {
    ghost from_gives = { λ load fault. fault ≡ fault_of_load load };

    /// A reader that failed is a device, and out of memory stays out of memory; else the input is refused.
    fn from(load: LoadFault) -> CommandFault {
        match load.fault.cause {
            OplCause::ReaderFailed => CommandFault::Device,
            OplCause::Memory => CommandFault::Memory,
            _ => CommandFault::Opl(load),
        }
    }
}

impl From<ProveFault> for CommandFault {
    ghost from_gives = { λ refused fault. fault ≡ fault_of_prove refused };

    fn from(refused: ProveFault) -> CommandFault {
        match refused {
            ProveFault::Query(fault) => CommandFault::Query(fault),
            ProveFault::Memory => CommandFault::Memory,
            ProveFault::Work => CommandFault::Work,
        }
    }
}

impl From<CheckFault> for CommandFault {
    ghost from_gives = { λ refused fault. fault ≡ fault_of_check refused };

    fn from(refused: CheckFault) -> CommandFault {
        match refused {
            CheckFault::Memory => CommandFault::Memory,
            CheckFault::Work => CommandFault::Work,
        }
    }
}

impl From<IndexFault> for CommandFault {
    ghost from_gives = { λ refused fault. fault ≡ fault_of_index refused };

    fn from(refused: IndexFault) -> CommandFault {
        match refused {
            IndexFault::Clash => CommandFault::Clash,
            IndexFault::TooMany => CommandFault::TooMany,
            IndexFault::Memory => CommandFault::Memory,
        }
    }
}

impl From<ApplyFault> for CommandFault {
    ghost from_gives = { λ refused fault. fault ≡ fault_of_apply refused };

    fn from(refused: ApplyFault) -> CommandFault {
        match refused {
            ApplyFault::Memory => CommandFault::Memory,
            _ => CommandFault::Apply(refused),
        }
    }
}

impl From<AllocError> for CommandFault {
    ghost from_gives = { λ _ fault. fault ≡ Memory };

    fn from(_: AllocError) -> CommandFault {
        CommandFault::Memory
    }
}
