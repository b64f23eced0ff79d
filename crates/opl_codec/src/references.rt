//! The references of objects, none of which may come twice.

ghost use Rattle.std.specs.Prelude.{◌≡◌, ◌++◌, ◌∷◌, [], IfOk, IsTrue, MatchBool, OnOk, not, true};
ghost use Rattle.std.specs.BTreeSet.{Updates, contains};
ghost use Rattle.std.specs.List.Sorted.{IsStrictlySortedBy};
ghost use Rattle.std.specs.Ordering.{is_lt};
ghost use Rattle.osm_model.specs.Elements.{reference, references, ref_cmp};
ghost use Rattle.opl_codec.specs.internal.Loading.{AreApart, HasJust, Knows};

use osm_model::{Object, Ref};
use std::alloc::{AllocError, Global};
use std::collections::BTreeSet;

/// The references of objects that come one after the other.
#[derive(Drop)]
pub(crate) struct References {
    alloc: Global,
    /// All of them, from the first that isn't above the one before it. Until then none can come twice.
    pub(crate) kept: Option<BTreeSet<Ref, Global>>,
}

impl References {
    /// Of no objects. It takes no memory.
    pub(crate) fn new(alloc: Global) -> References
        ensures { Knows result [] }
    {
        References { alloc, kept: None }
    }

    /// Adds the reference of the object that comes after these, and says whether it is a new one.
    pub(crate) fn add(&mut self, objects: &[Object], name: Ref) -> Result<bool, AllocError>
        requires { Knows self.old (references objects.now) }
        ensures { IfOk result (λ is_new. MatchBool is_new (Knows self.new (references objects.now
            ++ name ∷ [])) (¬ (AreApart (references objects.now ++ name ∷ [])))) }
    {
        if let Some(kept) = &mut self.kept {
            return insert(kept, name);
        }
        if is_above(objects, name) {
            return Ok(true);
        }
        let mut kept = references_of(self.alloc, objects)?;
        let is_new = insert(&mut kept, name)?;
        self.kept = Some(kept);
        Ok(is_new)
    }
}

/// Whether the reference is above that of the last object.
fn is_above(objects: &[Object], name: Ref) -> bool
    ensures { IsTrue result → IsStrictlySortedBy ref_cmp (references objects.now)
        → IsStrictlySortedBy ref_cmp (references objects.now ++ name ∷ []) }
{
    match objects.last() {
        None => true,
        Some(last) => is_below(last, name),
    }
}

#[tactic(auto, unfolding(osm_model::specs::Elements::ref_cmp))]
fn is_below(object: &Object, name: Ref) -> bool
    ensures { result ≡ is_lt (ref_cmp (reference object.now) name) }
{
    object.reference().cmp(&name).is_lt()
}

fn references_of(alloc: Global, objects: &[Object]) -> Result<BTreeSet<Ref, Global>, AllocError>
    ensures { IfOk result (λ kept. HasJust kept (references objects.now)) }
{
    let mut kept = BTreeSet::new(alloc);
    for object in objects {
        insert(&mut kept, object.reference())?;
    }
    Ok(kept)
}

/// Inserts a reference, and says whether it is a new one.
#[tactic(auto, unfolding(osm_model::specs::Elements::ref_cmp))]
fn insert(kept: &mut BTreeSet<Ref, Global>, name: Ref) -> Result<bool, AllocError>
    ensures new { IfOk result (λ is_new. is_new ≡ not (contains ref_cmp kept.old name)) }
    ensures updates { OnOk result (Updates ref_cmp kept.old kept.new name true) }
{
    Ok(kept.insert(name)?)
}
