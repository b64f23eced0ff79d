//! Why an outside shelf gave no node.

ghost use Rattle.std.specs.Prelude.{◌≡◌};
ghost use Rattle.outside_shelf.specs.Reasons.{reason_of_source};

use crate::source::SourceFault;
use thiserror::Error;

/// Why an outside shelf gave no node. A shelf tells only that it holds no such node, or that it is out of memory.
#[derive(Clone, Copy, Debug, PartialEq, Eq, Error)]
pub enum Refused {
    /// The source says that it has no node with this digest.
    #[error("no such node")]
    Absent,
    /// The source gave bytes that have another digest.
    #[error("other bytes than asked for")]
    Other,
    /// The source says that its device or connection failed.
    #[error("the device failed")]
    Device,
    /// Memory was refused, to the source or to the shelf.
    #[error("no memory")]
    Memory,
    /// With these bytes the source has given more than the shelf may read.
    #[error("too many bytes")]
    TooMany,
}

impl From<SourceFault> for Refused {
    ghost from_gives = { λ fault reason. reason ≡ reason_of_source fault };

    fn from(fault: SourceFault) -> Refused {
        match fault {
            SourceFault::Absent => Refused::Absent,
            SourceFault::Device => Refused::Device,
            SourceFault::Memory => Refused::Memory,
        }
    }
}
