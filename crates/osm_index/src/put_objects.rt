//! The objects that changes put.

ghost use Rattle.std.specs.List.{filter_map};
ghost use Rattle.std.specs.Prelude.{◌≡◌, ◌∷◌, ◌++◌, [], IfOk, OnOk};
ghost use Rattle.osm_index.specs.Applying.{AreApart};
ghost use Rattle.osm_index.specs.internal.Applying.{ArePut, put_in};

use opl_codec::Change;
use osm_model::{Object, ObjectSet};
use std::alloc::{AllocError, Global};

/// Copies of the objects that are put.
pub(crate) fn copies_of_put(alloc: Global, changes: &[Change]) -> Result<ObjectSet, AllocError>
    requires { AreApart changes.now }
    ensures { IfOk result (λ puts. ArePut changes.now puts) }
{
    let puts = list_put(alloc, changes)?;
    match ObjectSet::from_objects(puts) {
        Ok(set) => Ok(set),
        Err(_) => unreachable!("no object is put twice"),
    }
}

/// Copies of the objects that are put, in the order of the changes.
fn list_put(alloc: Global, changes: &[Change]) -> Result<Vec<Object>, AllocError>
    ensures { IfOk result (λ puts. puts.items ≡ filter_map put_in changes.now) }
{
    let mut puts = Vec::new(alloc);
    for change in changes {
        push_put(alloc, change, &mut puts)?;
    }
    Ok(puts)
}

/// Puts a copy of the object that a change puts, if it puts one, after these.
fn push_put(alloc: Global, change: &Change, puts: &mut Vec<Object>) -> Result<(), AllocError>
    ensures { OnOk result (puts.new.items ≡ puts.old.items ++ filter_map put_in (change.now ∷ [])) }
{
    match change {
        Change::Put(object) => {
            puts.push(object.copy(alloc)?)?;
            Ok(())
        }
        Change::Delete(_) => Ok(()),
    }
}
