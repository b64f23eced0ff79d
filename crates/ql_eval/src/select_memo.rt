//! What query statements gave that a query asked before, so that it may ask them again at little cost.

ghost use Rattle.std.specs.Prelude.{◌≡◌, ◌⊎◌, ℕ, List, [], IfSome, IsTrue};
ghost use Rattle.std.specs.List.{Contains};
ghost use Rattle.ql_eval.specs.internal.Recalling.{AsksTheSame, IsOf, sets_in};

use crate::memo::{are_same, mixed_all};
use crate::same_filters::{are_same_filters, mixed_filters};
use ql_syntax::{Filter, Pick};
use ref_sets::RefSet;
use std::alloc::{AllocError, Global};
use std::collections::BTreeMap;
use std::rc::Rc;

/// How many references the sets of a memo have together: 64 MB at most that a query would give back without it.
const ROOM: usize = 4_000_000;

/// A query statement over named sets.
#[derive(Drop)]
pub(crate) struct AskedSelect<'s, 'q> {
    pub(crate) pick: Pick,
    pub(crate) filters: &'s [Filter<'q>],
    /// The named sets that its filters read, in the order of the filters.
    pub(crate) reads: Vec<Rc<RefSet>>,
}

impl<'s, 'q> AskedSelect<'s, 'q> {
    /// Whether another statement is the same, over the same sets.
    fn is_same(&self, other: &AskedSelect<'_, '_>) -> bool
        ensures { IsTrue result → AsksTheSame self.now other.now }
    {
        self.pick == other.pick
            && are_same_filters(self.filters, other.filters)
            && are_same_sets(self.reads.as_slice(), other.reads.as_slice())
    }

    /// A number that two statements rarely share.
    fn number(&self) -> u64 {
        let mut number = mixed_filters(self.pick as u64, self.filters);
        for set in &self.reads {
            number = mixed_all(number, set);
        }
        number
    }

    /// How many references its sets have together.
    fn size(&self) -> usize {
        let mut size = 0usize;
        for set in &self.reads {
            size = size.saturating_add(set.as_slice().len());
        }
        size
    }
}

/// A query statement that was asked.
#[derive(Drop)]
pub(crate) struct RememberedSelect<'s, 'q> {
    pub(crate) asked: AskedSelect<'s, 'q>,
    /// What it gave.
    pub(crate) found: Rc<RefSet>,
    /// What a meter counted for it.
    pub(crate) work: u128,
}

/// The query statements that a query asked. One is found by a number that is made from its filters and from the whole sets
/// that they read, and then compared, so finding it takes their length.
#[derive(Drop)]
pub(crate) struct SelectMemo<'s, 'q> {
    /// Where the last one with each number is.
    places: BTreeMap<u64, usize>,
    /// All of them, in the order in which they were asked.
    pub(crate) remembered: Vec<RememberedSelect<'s, 'q>>,
    /// What is remembered has fewer references than this. Where it is 0 nothing is.
    room: usize,
}

impl<'s, 'q> SelectMemo<'s, 'q> {
    /// No statement was asked yet. For a query that asks none twice nothing is remembered, which saves most of what a
    /// memo costs it.
    pub(crate) fn new(alloc: Global, may_repeat: bool) -> SelectMemo<'s, 'q>
        ensures { result.remembered.items ≡ [] }
    {
        SelectMemo {
            places: BTreeMap::new(alloc),
            remembered: Vec::new(alloc),
            room: if may_repeat { ROOM } else { 0 },
        }
    }

    /// Whether it may remember a statement.
    pub(crate) fn remembers(&self) -> bool {
        self.room > 0
    }

    /// The statement that was asked before, over the same sets, if it is remembered.
    pub(crate) fn recalled(&self, asked: &AskedSelect<'_, '_>) -> Option<&RememberedSelect<'s, 'q>>
        ensures { IfSome result (λ one. Contains self.now.remembered.items one.now
            × AsksTheSame asked.now one.now.asked) }
    {
        let place = *self.places.get(&asked.number())?;
        if place >= self.remembered.len() {
            return None;
        }
        let one = &self.remembered[place];
        if asked.is_same(&one.asked) {
            Some(one)
        } else {
            None
        }
    }

    /// Remembers what a statement gave, if there is room for it and for its sets, and what a meter counted for it from one
    /// moment to another, unless it is the greatest count, which may be cut.
    pub(crate) fn remember(
        &mut self,
        asked: AskedSelect<'s, 'q>,
        found: Rc<RefSet>,
        before: u128,
        after: u128,
    ) -> Result<(), AllocError>
        ensures { (one : _) → Contains self.new.remembered.items one
            → Contains self.old.remembered.items one ⊎ IsOf asked.entry found.value before after one }
    {
        let size = asked.size().saturating_add(found.as_slice().len());
        if size >= self.room || after == u128::MAX {
            return Ok(());
        }
        let number = asked.number();
        let Ok(_before) = self.places.insert(number, self.remembered.len()) else {
            return Err(AllocError);
        };
        let work = after.saturating_sub(before);
        self.remembered
            .push(RememberedSelect { asked, found, work })?;
        self.room -= size;
        Ok(())
    }
}

/// Whether two lists of sets are the same.
fn are_same_sets(first: &[Rc<RefSet>], second: &[Rc<RefSet>]) -> bool
    ensures { IsTrue result → sets_in first.now ≡ sets_in second.now }
{
    if first.len() != second.len() {
        return false;
    }
    for (one, other) in first.iter().zip(second) {
        if !are_same(one.as_slice(), other.as_slice()) {
            return false;
        }
    }
    true
}
