//! The named sets of a query.

ghost use Rattle.std.specs.Prelude.{◌≡◌, ◌<◌, [], ℕ, IfNone, IfOk, IfSome, OnOk, bytes_eq, false, length, slice_index_or, true};
ghost use Rattle.ref_sets.specs.NamedSets.{nothing_named, put, lists_of};
ghost use Rattle.ref_sets.specs.internal.NamedSetPlaces.{IsPlaceOf};

use crate::named_set::NamedSet;
use crate::ref_set::RefSet;
use std::alloc::{AllocError, Global};
use std::rc::Rc;

/// The sets that statements wrote. A search goes over all names: a query has some thousands at most.
#[derive(Drop)]
pub struct NamedSets<'q> {
    alloc: Global,
    /// Each name once.
    pub named: Vec<NamedSet<'q>>,
    /// The set of a name that was never written.
    pub nothing: RefSet,
    ghost empty: { length nothing ≡ 0 },
}

impl<'q> NamedSets<'q> {
    /// No set is written yet.
    pub fn new(alloc: Global) -> NamedSets<'q>
        ensures { lists_of result.named.items ≡ nothing_named }
    {
        NamedSets {
            alloc,
            named: Vec::new(alloc),
            nothing: RefSet::new(alloc),
        }
    }

    /// The set with this name, which is empty where none was written.
    pub fn get(&self, name: &[u8]) -> &RefSet
        ensures { result.now ≡ lists_of self.now.named.items name.now }
    {
        for named in &self.named {
            if named.name == name {
                return &named.refs;
            }
        }
        self.nothing()
    }

    /// The empty set.
    pub fn nothing(&self) -> &RefSet
        ensures { result.now ≡ [] }
    {
        &self.nothing
    }

    /// The set with this name, shared: it doesn't change when the name is given another set later, and nothing is copied.
    /// Refused where memory runs out, which can only happen for a name that was never written: its empty set is allocated.
    pub fn shared(&self, name: &[u8]) -> Result<Rc<RefSet>, AllocError>
        ensures { IfOk result (λ refs. refs.value ≡ lists_of self.now.named.items name.now) }
    {
        for named in &self.named {
            if named.name == name {
                return named.refs.clone();
            }
        }
        let Ok(refs) = Rc::new(self.alloc, RefSet::new(self.alloc)) else {
            return Err(AllocError);
        };
        Ok(refs)
    }

    /// Writes a set, in place of the one that had the name.
    pub fn write(&mut self, name: &'q [u8], refs: RefSet) -> Result<(), AllocError>
        ensures { OnOk result (lists_of self.new.named.items
            ≡ put name.now refs (lists_of self.old.named.items)) }
    {
        let Ok(refs) = Rc::new(self.alloc, refs) else {
            return Err(AllocError);
        };
        self.write_shared(name, refs)
    }

    /// Writes a set that has other owners too, in place of the one that had the name. Nothing is copied.
    pub fn write_shared(&mut self, name: &'q [u8], refs: Rc<RefSet>) -> Result<(), AllocError>
        ensures { OnOk result (lists_of self.new.named.items
            ≡ put name.now refs.value (lists_of self.old.named.items)) }
    {
        match self.place_of(name) {
            Some(place) => {
                self.named[place] = NamedSet { name, refs };
                Ok(())
            }
            None => {
                self.named.push(NamedSet { name, refs })?;
                Ok(())
            }
        }
    }

    /// Where the set with this name is.
    fn place_of(&self, name: &[u8]) -> Option<usize>
        ensures found { IfSome result (λ at. IsPlaceOf self.now.named.items name.now at) }
        ensures none { IfNone result ((k : ℕ) (d : _) → k < length self.now.named.items
            → bytes_eq (slice_index_or self.now.named.items k d).name.now name.now ≡ false) }
    {
        self.named.iter().position(|named| named.name == name)
    }
}
