//! The edition that comes after another one.

ghost use Rattle.std.specs.Prelude.{◌≡◌, IfErr, IfOk};
ghost use Rattle.osm_index.specs.Applying.{IsLast};
ghost use Rattle.osm_index.specs.internal.Updates.{IsNext};

use crate::apply_fault::ApplyFault;
use osm_keys::Edition;

/// The second edition at the next sequence. Refused where none comes after that of the edition.
pub(crate) fn edition_after(edition: Edition) -> Result<Edition, ApplyFault>
    ensures next { IfOk result (IsNext edition) }
    ensures refused { IfErr result (λ fault. (fault ≡ ApplyFault.LastSequence) × IsLast edition) }
{
    match edition {
        Edition::One => Err(ApplyFault::LastSequence),
        Edition::Two { sequence } => match sequence.checked_add(1) {
            Some(sequence) => Ok(Edition::Two { sequence }),
            None => Err(ApplyFault::LastSequence),
        },
    }
}
