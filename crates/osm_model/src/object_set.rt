//! Sets of objects.

ghost use Rattle.std.specs.Prelude.{◌≡◌, ◌≤◌, ◌↔◌, ℕ, IsTrue, All, IfOk, IfErr, length, slice_get, ◌<◌};
ghost use Rattle.std.specs.Option.{option_copied};
ghost use Rattle.std.specs.List.{AllAdjacentBelow};
ghost use Rattle.std.specs.List.Sorted.{IsPermutation, IsSortedByKey};
ghost use Rattle.osm_model.specs.Elements.{reference, ref_cmp, kind_byte};
ghost use Rattle.osm_model.specs.Limits.{IsElement};
ghost use Rattle.osm_model.specs.Sets.{IsObjectSet, HasDistinctReferences, object_at};

use crate::fault::ModelFault;
use crate::object::Object;
use crate::reference::Ref;
use std::cmp::Ordering;
use std::marker::Model;

/// A set of objects: no two have one reference. Contracts see the list of them by rising reference.
#[derive(Debug, Drop)]
pub struct ObjectSet {
    objects: Vec<Object>,
}

impl Model for ObjectSet {
    ghost use Rattle.std.specs.Prelude.{List};
    ghost use Rattle.osm_model.specs.Elements.{Element};
    ghost use Rattle.osm_model.specs.Sets.{IsObjectSet};

    ghost Value = { List Element };

    ghost view = { λ a. a.objects.items };

    ghost invariant = { λ a. IsObjectSet a.objects.items };
}

impl ObjectSet {
    /// The set of just these objects. They are sorted in place, in n log n, and nothing takes memory.
    ///
    /// Refused with `ObjectTwice` where two have one reference; the objects are dropped then.
    pub fn from_objects(objects: Vec<Object>) -> Result<ObjectSet, ModelFault>
        // The set has just these objects.
        ensures made { IfOk result (λ set. IsPermutation objects.items set × IsObjectSet set) }
        // Where a reference stands twice, and nowhere else, it is refused.
        ensures twice { IfErr result (λ fault. (fault ≡ ModelFault.ObjectTwice) × ¬ (HasDistinctReferences objects.items)) }
        ensures once { IfOk result (λ _. HasDistinctReferences objects.items) }
    {
        let mut objects = objects;
        sort_objects(&mut objects);
        if !references_rise(&objects) {
            return Err(ModelFault::ObjectTwice);
        }
        // For the proof alone: a set's objects keep their limits.
        note_elements(&objects);
        Ok(ObjectSet { objects })
    }

    /// The objects, by rising reference.
    pub fn as_slice(&self) -> &[Object]
        ensures value { result.now ≡ self.now }
        ensures set { IsObjectSet self.now }
    {
        &self.objects
    }

    /// The object with this reference, or `None` where there is none. A binary search.
    pub fn get(&self, name: Ref) -> Option<&Object>
        ensures found { option_copied result ≡ object_at self.now name }
        ensures set { IsObjectSet self.now }
    {
        match place_of(&self.objects, name) {
            Ok(at) => Some(&self.objects[at]),
            Err(_) => None,
        }
    }
}

#[tactic(auto, unfolding(crate::specs::Elements::ref_cmp))]
fn compare_references(first: &Object, second: &Object) -> Ordering
    ensures { result ≡ ref_cmp (reference first.now) (reference second.now) }
{
    first.reference().cmp(&second.reference())
}

/// Sorts objects by their references.
fn sort_objects(objects: &mut Vec<Object>)
    ensures permutation { IsPermutation objects.old.items objects.new.items }
    ensures sorted { IsSortedByKey (λ o. reference o) ref_cmp objects.new.items }
{
    objects.sort_unstable_by(|first, second| compare_references(first, second));
}

/// Whether each reference is below the next.
fn references_rise(objects: &[Object]) -> bool
    ensures { IsTrue result ↔ AllAdjacentBelow (λ first second. ref_cmp (reference first) (reference second) ≡ Ordering.Less) objects.now (length objects.now) }
{
    for i in 1..objects.len() {
        if !compare_references(&objects[i - 1], &objects[i]).is_lt() {
            return false;
        }
    }
    true
}

/// Brings to a proof that each object keeps its limits. It does nothing else.
fn note_elements(objects: &[Object])
    ensures { All IsElement objects.now }
{
    for object in objects {
        let _ = object.id();
    }
}

fn place_key(name: Ref) -> (u8, i64)
    ensures { result ≡ (kind_byte name.kind, name.id) }
{
    (name.kind as u8, name.id)
}

/// Where the object with this reference is.
fn place_of(objects: &[Object], name: Ref) -> Result<usize, usize>
    requires { IsObjectSet objects.now }
    ensures found { IfOk result (λ at. (at < length objects.now) × (object_at objects.now name ≡ slice_get objects.now at)) }
    ensures none { IfErr result (λ _. object_at objects.now name ≡ None) }
{
    objects.binary_search_by_key(&place_key(name), |object| place_key(object.reference()))
}
