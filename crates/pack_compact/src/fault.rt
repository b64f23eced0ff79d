//! Why no pack was written.

ghost use Rattle.std.specs.Prelude.{◌≡◌};
ghost use Rattle.pack_compact.specs.Faults.{fault_of_build, fault_of_push, fault_of_read, fault_of_writer};

use node_pack::ReadFault;
use outside_shelf::Refused;
use pack_build::BuildFault;
use thiserror::Error;
use tree_stream::{StreamFault, WriterFault};

/// Why no pack was written of the publication that files hold.
#[derive(Clone, Copy, Debug, PartialEq, Eq, Error)]
pub enum CompactFault {
    /// The files gave no node where one was needed, for this reason. It says nothing of the publication: other files may have the
    /// node.
    #[error("{0}")]
    Source(Refused),
    /// The node with the root is no manifest.
    #[error("no manifest")]
    NoManifest,
    /// The nodes under the root are no trees of a publication.
    #[error("no tree")]
    NoTree,
    /// Two different nodes have one digest.
    #[error("I1")]
    Clash,
    /// A record would have 2^32 bytes or more, or the pack more than 2^48.
    #[error("the pack is too long")]
    TooLong,
    /// Memory was refused.
    #[error("no memory")]
    Memory,
    /// The device of the stores failed.
    #[error("the device failed")]
    Device,
    /// The writer failed or took nothing, or there was no memory for a node while the pack was written.
    #[error("the pack couldn't be written")]
    NotWritten,
}

impl From<ReadFault> for CompactFault {
    ghost from_gives = { λ fault told. told ≡ fault_of_read fault };

    fn from(fault: ReadFault) -> CompactFault {
        match fault {
            ReadFault::Device => CompactFault::Source(Refused::Device),
            ReadFault::Memory => CompactFault::Memory,
        }
    }
}

impl From<StreamFault> for CompactFault {
    ghost from_gives = { λ fault told. told ≡ fault_of_push fault };

    /// An entry that no tree takes at its place is in no tree.
    fn from(fault: StreamFault) -> CompactFault {
        match fault {
            StreamFault::NotRising | StreamFault::TooLong | StreamFault::TooMany => {
                CompactFault::NoTree
            }
            StreamFault::Memory => CompactFault::Memory,
            StreamFault::Device => CompactFault::Device,
        }
    }
}

impl From<WriterFault> for CompactFault {
    ghost from_gives = { λ fault told. told ≡ fault_of_writer fault };

    fn from(fault: WriterFault) -> CompactFault {
        match fault {
            WriterFault::Memory => CompactFault::Memory,
            WriterFault::Device => CompactFault::Device,
        }
    }
}

impl From<BuildFault> for CompactFault {
    ghost from_gives = { λ fault told. told ≡ fault_of_build fault };

    fn from(fault: BuildFault) -> CompactFault {
        match fault {
            // Trees that are there have a set, and few enough entries.
            BuildFault::Load(_) | BuildFault::TooMany => CompactFault::NoTree,
            BuildFault::Clash => CompactFault::Clash,
            BuildFault::TooLong => CompactFault::TooLong,
            BuildFault::Memory => CompactFault::Memory,
            BuildFault::Device => CompactFault::Device,
            BuildFault::NotWritten => CompactFault::NotWritten,
        }
    }
}
