//! Why nothing was added.

ghost use Rattle.std.specs.Prelude.{◌≡◌};
ghost use Rattle.pack_update.specs.Faults.{fault_of_open};
ghost use Rattle.pack_update.specs.declared.fault.AddFault.TheVariants.{Write};

use node_pack::{PackFault, WriteFault};
use osm_index::ApplyFault;
use outside_shelf::Refused;
use thiserror::Error;

/// Why changes weren't added to the files of a publication.
#[derive(Clone, Copy, Debug, PartialEq, Eq, Error)]
pub enum AddFault {
    /// The files gave no node where one was needed, for this reason. It says nothing of the publication or of the changes: other
    /// files may have the node.
    #[error("{0}")]
    Source(Refused),
    /// The node with the root is no manifest.
    #[error("no manifest")]
    NoManifest,
    /// The nodes under the root are no trees of a publication.
    #[error("no tree")]
    NoTree,
    /// The changes are refused, or memory is.
    #[error("{0}")]
    Apply(ApplyFault),
    /// The new file isn't written.
    #[error("{0}")]
    Write(WriteFault),
}

impl From<PackFault> for AddFault {
    ghost from_gives = { λ fault told. told ≡ fault_of_open fault };

    fn from(fault: PackFault) -> AddFault {
        match fault {
            PackFault::Memory => AddFault::Source(Refused::Memory),
            PackFault::NotAPack
            | PackFault::OtherVersion
            | PackFault::Cut
            | PackFault::BytesAfter
            | PackFault::Device => AddFault::Source(Refused::Device),
        }
    }
}

impl From<WriteFault> for AddFault {
    ghost from_gives = { λ fault told. told ≡ Write fault };

    fn from(fault: WriteFault) -> AddFault {
        AddFault::Write(fault)
    }
}
