//! Why a pack that was begun isn't written whole.

ghost use Rattle.std.specs.Prelude.{◌≡◌};
ghost use Rattle.pack_assembly.specs.Faults.{unwritten_of_read};
ghost use Rattle.pack_assembly.specs.declared.unwritten.Unwritten.TheVariants.{NotWritten as Failed};

use byte_io::NotWritten;
use tree_stream::ReadBackFault;

/// Why a pack that was begun isn't written whole.
#[derive(Clone, Copy, Debug, PartialEq, Eq)]
pub(crate) enum Unwritten {
    /// The levels weren't read again as they were before.
    Device,
    /// The writer failed, or took nothing, or there was no memory for a node.
    NotWritten,
}

impl From<ReadBackFault> for Unwritten {
    ghost from_gives = { λ fault unwritten. unwritten ≡ unwritten_of_read fault };

    fn from(fault: ReadBackFault) -> Unwritten {
        match fault {
            ReadBackFault::Memory => Unwritten::NotWritten,
            ReadBackFault::Device => Unwritten::Device,
        }
    }
}

impl From<NotWritten> for Unwritten {
    ghost from_gives = { λ _ unwritten. unwritten ≡ Failed };

    fn from(_fault: NotWritten) -> Unwritten {
        Unwritten::NotWritten
    }
}
