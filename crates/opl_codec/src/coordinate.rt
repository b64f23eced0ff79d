//! Coordinates.

ghost use Rattle.std.specs.Prelude.{◌≢◌, ℕ, List, [], IfOk, IfErr};
ghost use Rattle.osm_model.specs.Degrees.{IsFault};
ghost use Rattle.osm_model.specs.declared.axis.Axis.{Axis};
ghost use Rattle.opl_codec.specs.Values.{SpellsCoordinate, FitsAxis};
ghost use Rattle.opl_codec.specs.ValueFaults.{CoordinateFault};

use crate::value_fault::ValueFault;
use osm_model::{Axis, ModelFault, read_degrees};

/// A coordinate, in 1e-7 degree, or `None` where there is no text.
pub(crate) fn read_degrees_field(text: &[u8], axis: Axis) -> Result<Option<i32>, ValueFault>
    ensures read { IfOk result (λ found. SpellsCoordinate text.now found × FitsAxis axis found) }
    ensures refused { IfErr result (λ fault. CoordinateFault axis text.now fault) }
{
    if text.is_empty() {
        return Ok(None);
    }
    match read_degrees(text, axis) {
        Ok(degrees) => Ok(Some(degrees)),
        Err(fault) => Err(value_fault_of(fault)),
    }
}

/// What the model's fault is in a field.
fn value_fault_of(fault: ModelFault) -> ValueFault
    ensures { (text : List ℕ) (axis : Axis) → text ≢ [] → IsFault text axis fault
        → CoordinateFault axis text result }
{
    match fault {
        ModelFault::OutOfRange => ValueFault::Limit,
        _ => ValueFault::Form,
    }
}
