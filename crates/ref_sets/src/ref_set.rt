//! Sets of references.

ghost use Rattle.std.specs.Prelude.{◌≡◌, ◌⊎◌, ◌↔◌, [], IfOk, IsTrue};
ghost use Rattle.std.specs.List.{Contains};
ghost use Rattle.std.specs.List.Sorted.{IsStrictlySortedBy};
ghost use Rattle.osm_model.specs.Elements.{ref_cmp};
ghost use Rattle.ref_sets.specs.Kinds.{IsBetween};
ghost use Rattle.ref_sets.specs.Sets.{IsSetOf};

use crate::kinds::between;
use crate::rising_lists::filter_by;
use osm_model::{Kind, Ref};
use std::alloc::{AllocError, Global};
use std::marker::Model;

/// A set of references. Contracts see the list of them, which strictly rises.
#[derive(Drop)]
pub struct RefSet {
    refs: Vec<Ref>,
}

impl Model for RefSet {
    ghost use Rattle.std.specs.Prelude.{List};
    ghost use Rattle.std.specs.List.Sorted.{IsStrictlySortedBy};
    ghost use Rattle.osm_model.specs.Elements.{ref_cmp};
    ghost use Rattle.osm_model.specs.declared.reference.Ref.{Ref};

    ghost Value = { List Ref };

    ghost view = { λ a. a.refs.items };

    ghost invariant = { λ a. IsStrictlySortedBy ref_cmp a.refs.items };
}

impl RefSet {
    /// The set of no references.
    pub fn new(alloc: Global) -> RefSet
        ensures { result ≡ [] }
    {
        RefSet {
            refs: Vec::new(alloc),
        }
    }

    /// The set of the references of a list. They are sorted in place, in n log n, and nothing takes memory.
    pub fn from_refs(refs: Vec<Ref>) -> RefSet
        ensures { IsSetOf result (Contains refs.items) }
    {
        let mut refs = refs;
        refs.sort_unstable();
        refs.dedup();
        RefSet { refs }
    }

    /// The set of the references of some sets, whose lists are one after the other. Merges them.
    pub fn from_runs(refs: Vec<Ref>) -> Result<RefSet, AllocError>
        ensures { IfOk result (λ set. IsSetOf set (Contains refs.items)) }
    {
        let mut refs = refs;
        // The stable sort merges what rises already.
        refs.sort()?;
        refs.dedup();
        Ok(RefSet { refs })
    }

    /// The set of the references of a list that strictly rises. It costs nothing.
    pub fn from_rising(refs: Vec<Ref>) -> RefSet
        requires { IsStrictlySortedBy ref_cmp refs.items }
        ensures { result ≡ refs.items }
    {
        Self { refs }
    }

    /// The references, rising.
    pub fn as_slice(&self) -> &[Ref]
        ensures value { result.now ≡ self.now }
        ensures rising { IsStrictlySortedBy ref_cmp self.now }
    {
        self.refs.as_slice()
    }

    /// The list of the references, rising. It costs nothing.
    pub fn into_refs(self) -> Vec<Ref>
        ensures { result.items ≡ self }
    {
        let RefSet { refs } = self;
        refs
    }

    /// Whether a reference is in the set. A binary search.
    pub fn contains(&self, name: Ref) -> bool
        ensures { IsTrue result ↔ Contains self.now name }
    {
        self.refs.binary_search(&name).is_ok()
    }

    /// The references of this set and of another one. A merge.
    pub fn union(&self, alloc: Global, other: &RefSet) -> Result<RefSet, AllocError>
        ensures { IfOk result (λ set. IsSetOf set (λ r. Contains self.now r ⊎ Contains other.now r)) }
    {
        let mut refs = Vec::from_slice(alloc, &self.refs)?;
        refs.extend_from_slice(&other.refs)?;
        RefSet::from_runs(refs)
    }

    /// The references of this set that another one has too. One pass over the smaller of the two, with a search in the
    /// other one that goes along.
    pub fn intersection(&self, alloc: Global, other: &RefSet) -> Result<RefSet, AllocError>
        ensures { IfOk result (λ set. IsSetOf set (λ r. Contains self.now r × Contains other.now r)) }
    {
        if self.refs.len() <= other.refs.len() {
            let refs = filter_by(alloc, &self.refs, &other.refs, true)?;
            Ok(RefSet { refs })
        } else {
            let refs = filter_by(alloc, &other.refs, &self.refs, true)?;
            Ok(RefSet { refs })
        }
    }

    /// The references of this set that another one lacks. One pass over this set, with a search in the other one that
    /// goes along.
    pub fn difference(&self, alloc: Global, other: &RefSet) -> Result<RefSet, AllocError>
        ensures { IfOk result (λ set. IsSetOf set (λ r. Contains self.now r × ¬ (Contains other.now r))) }
    {
        let refs = filter_by(alloc, &self.refs, &other.refs, false)?;
        Ok(RefSet { refs })
    }

    /// The references of this set whose kinds are from one to another, in the order of kinds: nodes, ways, relations. They
    /// are next to each other, and are lent. Two binary searches.
    pub fn of_kinds(&self, first: Kind, last: Kind) -> &[Ref]
        ensures { IsSetOf result.now (λ r. Contains self.now r × IsBetween first last r) }
    {
        between(&self.refs, first, last)
    }

    /// The references of this set that are of a kind. Two binary searches, and a copy of what they find.
    pub fn of_kind(&self, alloc: Global, kind: Kind) -> Result<RefSet, AllocError>
        ensures { IfOk result (λ set. IsSetOf set (λ r. Contains self.now r × (r.kind ≡ kind))) }
    {
        let refs = Vec::from_slice(alloc, self.of_kinds(kind, kind))?;
        Ok(RefSet { refs })
    }

    /// The same set once more.
    pub fn copy(&self, alloc: Global) -> Result<RefSet, AllocError>
        ensures { IfOk result (λ set. set ≡ self.now) }
    {
        let refs = Vec::from_slice(alloc, &self.refs)?;
        Ok(RefSet { refs })
    }
}
