//! What refuses changes by the objects that they name.

ghost use Rattle.std.specs.BTreeSet.{Updates, contains};
ghost use Rattle.std.specs.List.{Contains};
ghost use Rattle.std.specs.Prelude.{◌≡◌, ◌∷◌, [], IfErr, IfOk, IsOk, MatchOption, OnOk, not, true};
ghost use Rattle.osm_model.specs.Elements.{ref_cmp, references};
ghost use Rattle.opl_codec.specs.declared.change.Change.TheVariants as variants;
ghost use Rattle.osm_index.specs.Applying.{AreApart, DeleteThere, name_of};
ghost use Rattle.osm_index.specs.internal.Applying.{RefusesDeletes, RefusesNames};

use crate::apply_fault::ApplyFault;
use opl_codec::Change;
use osm_model::{ObjectSet, Ref};
use std::alloc::{AllocError, Global};
use std::collections::BTreeSet;

/// Refuses with `ChangedTwice` the earliest change whose object an earlier one names.
pub(crate) fn refuse_repeats(alloc: Global, changes: &[Change]) -> Result<(), ApplyFault>
    ensures apart { IsOk result → AreApart changes.now }
    ensures refused { IfErr result (RefusesNames changes.now) }
{
    let mut names = BTreeSet::new(alloc);
    for change in changes {
        let name = name_of(change);
        if !insert(&mut names, name)? {
            return Err(ApplyFault::ChangedTwice(name));
        }
    }
    Ok(())
}

/// The name of the object that a change is of.
pub(crate) fn name_of(change: &Change) -> Ref
    ensures { result ≡ name_of change.now }
{
    match change {
        Change::Put(object) => object.reference(),
        Change::Delete(name) => *name,
    }
}

/// Inserts a name, and says whether it is a new one.
fn insert(names: &mut BTreeSet<Ref>, name: Ref) -> Result<bool, AllocError>
    ensures new { IfOk result (λ is_new. is_new ≡ not (contains ref_cmp names.old name)) }
    ensures updates { OnOk result (Updates ref_cmp names.old names.new name true) }
{
    Ok(names.insert(name)?)
}

/// Refuses with `NotThere` the earliest delete of an object that isn't in the set.
pub(crate) fn refuse_missing_deletes(set: &ObjectSet, changes: &[Change]) -> Result<(), ApplyFault>
    ensures there { IsOk result → DeleteThere set.now changes.now }
    ensures refused { IfErr result (RefusesDeletes set.now changes.now) }
{
    for change in changes {
        if let Some(name) = missing(set, change) {
            return Err(ApplyFault::NotThere(name));
        }
    }
    Ok(())
}

/// The name of the object that a change deletes, where it isn't in the set.
fn missing(set: &ObjectSet, change: &Change) -> Option<Ref>
    ensures { MatchOption result (DeleteThere set.now (change.now ∷ []))
        (λ name. (change.now ≡ variants.Delete name) × ¬ Contains (references set.now) name) }
{
    match change {
        Change::Put(_) => None,
        Change::Delete(name) => match set.get(*name) {
            Some(_) => None,
            None => Some(*name),
        },
    }
}
