//! Why levels aren't gone through.

ghost use Rattle.std.specs.Prelude.{◌≡◌};
ghost use Rattle.pack_assembly.specs.Faults.{refusal_of_read, refusal_of_sort};

use external_sort::SortFault;
use tree_stream::ReadBackFault;

/// Why levels aren't gone through, before anything is written.
#[derive(Clone, Copy, Debug, PartialEq, Eq)]
pub(crate) enum Refusal {
    /// Memory was refused.
    Memory,
    /// A device failed, or gave back what it wasn't given.
    Device,
}

impl From<SortFault> for Refusal {
    ghost from_gives = { λ fault refusal. refusal ≡ refusal_of_sort fault };

    fn from(fault: SortFault) -> Refusal {
        match fault {
            SortFault::Memory => Refusal::Memory,
            // A digest is never too long for a sorter.
            SortFault::Device | SortFault::TooLong => Refusal::Device,
        }
    }
}

impl From<ReadBackFault> for Refusal {
    ghost from_gives = { λ fault refusal. refusal ≡ refusal_of_read fault };

    fn from(fault: ReadBackFault) -> Refusal {
        match fault {
            ReadBackFault::Memory => Refusal::Memory,
            ReadBackFault::Device => Refusal::Device,
        }
    }
}
