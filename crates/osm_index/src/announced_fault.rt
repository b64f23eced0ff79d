//! Why changes are refused whose root is announced.

ghost use Rattle.std.specs.Prelude.{◌≡◌};
ghost use Rattle.osm_index.specs.declared.announced_fault.AnnouncedFault.TheVariants.{Apply};

use crate::apply_fault::ApplyFault;
use thiserror::Error;

/// Why changes of a snapshot's set are refused, where the root that they give is announced. Its text is its code, and
/// for the changes that of `ApplyFault`.
#[derive(Clone, Copy, Debug, PartialEq, Eq, Error)]
pub enum AnnouncedFault {
    /// The changes are refused, whatever is announced.
    #[error("{0}")]
    Apply(ApplyFault),
    /// I6: the changes give another root than the one that is announced.
    #[error("I6")]
    OtherRoot,
}

impl From<ApplyFault> for AnnouncedFault {
    ghost from_gives = { λ fault told. told ≡ Apply fault };

    fn from(fault: ApplyFault) -> AnnouncedFault {
        AnnouncedFault::Apply(fault)
    }
}
