//! Objects, read from the entries of the object tree.

ghost use Rattle.std.specs.Prelude.{◌≡◌, ◌⊎◌, IfErr, IfOk, Ok, Some};
ghost use Rattle.opl_codec.specs.LineChanges.{Spells};
ghost use Rattle.osm_model.specs.Elements.{Element, reference};
ghost use Rattle.tree_node.specs.NodeRefs.{binding_of};
ghost use Rattle.tree_node.specs.declared.tree.Tree.TheVariants.{Objects};
ghost use Rattle.ql_eval.specs.Forms.{SaysObject};
ghost use Rattle.ql_eval.specs.internal.Entries.{IsMisread};
ghost use Rattle.ql_eval.specs.internal.Objects.{IsForMemory};

use crate::fault::EvalFault;
use opl_codec::{Change, OplCause, OplFault, read_line};
use osm_keys::read_reference_key;
use osm_model::{Object, Ref};
use std::alloc::Global;
use tree_node::Item;

/// The object that an entry of the object tree puts. `Form` where its key is no reference, or its value no line that puts
/// the object with this reference.
pub(crate) fn object_in(alloc: Global, item: &Item<'_>) -> Result<Object, EvalFault>
    ensures put { IfOk result (SaysObject (binding_of item.now)) }
    ensures refused { IfErr result (IsMisread Objects (binding_of item.now)) }
{
    match read_reference_key(item.key) {
        Some(name) => read_object(alloc, name, item.value),
        None => Err(EvalFault::Form),
    }
}

/// The object of this name that a line puts. `Form` where it puts no object of that name.
fn read_object(alloc: Global, name: Ref, line: &[u8]) -> Result<Object, EvalFault>
    ensures put { IfOk result
        (λ object. Spells line.now (Change.Put object) × (reference object ≡ name)) }
    ensures refused { IfErr result (λ fault. (fault ≡ EvalFault.Memory)
        ⊎ ((fault ≡ EvalFault.Form)
        × ((o : Element) → Spells line.now (Change.Put o) → ¬ (reference o ≡ name)))) }
{
    put_by(name, read_line(alloc, line))
}

/// The object of this name, where reading a line gave that it is put. `Memory` exactly where reading ran out of it, and
/// `Form` in all other cases.
fn put_by(name: Ref, read: Result<Option<Change>, OplFault>) -> Result<Object, EvalFault>
    ensures put { (o : Element) → read ≡ Ok (Some (Change.Put o)) → reference o ≡ name
        → result ≡ Ok o }
    ensures given { IfOk result
        (λ object. (read ≡ Ok (Some (Change.Put object))) × (reference object ≡ name)) }
    ensures refused { IfErr result (λ fault. ((fault ≡ EvalFault.Memory) × IsForMemory read)
        ⊎ ((fault ≡ EvalFault.Form) × ¬ IsForMemory read)) }
{
    match read {
        Ok(Some(Change::Put(object))) => {
            if object.reference() != name {
                return Err(EvalFault::Form);
            }
            Ok(object)
        }
        Ok(Some(Change::Delete(_))) => Err(EvalFault::Form),
        Ok(None) => Err(EvalFault::Form),
        Err(fault) => Err(fault_of_line(fault.cause)),
    }
}

/// What a line that can't be read makes of an evaluation.
fn fault_of_line(cause: OplCause) -> EvalFault
    ensures memory { cause ≡ OplCause.Memory → result ≡ EvalFault.Memory }
    ensures form { ¬ (cause ≡ OplCause.Memory) → result ≡ EvalFault.Form }
{
    match cause {
        OplCause::Memory => EvalFault::Memory,
        _ => EvalFault::Form,
    }
}
