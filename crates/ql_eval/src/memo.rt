//! What recursions gave that a query asked before, so that it may ask them again at little cost.

ghost use Rattle.std.specs.Prelude.{◌≡◌, ◌⊎◌, ◌↔◌, [], IfSome, IsTrue};
ghost use Rattle.std.specs.List.{Contains};
ghost use Rattle.ql_eval.specs.internal.Remembering.{IsOf, Recalls};

use osm_model::Ref;
use ql_syntax::Recursion;
use ref_sets::RefSet;
use std::alloc::{AllocError, Global};
use std::collections::BTreeMap;
use std::rc::Rc;

/// How many references the sets of a memo have together: 64 MB at most that a query would give back without it.
const ROOM: usize = 4_000_000;

/// A recursion that was asked.
#[derive(Drop)]
pub(crate) struct Remembered {
    pub(crate) how: Recursion,
    /// The set that it starts from.
    pub(crate) start: Rc<RefSet>,
    /// What it gave.
    pub(crate) found: Rc<RefSet>,
}

/// The recursions that a query asked. One is found by a number that is made from its whole set, and then compared, so
/// finding it takes the length of the set.
#[derive(Drop)]
pub(crate) struct Memo {
    /// Where the last one with each number is.
    places: BTreeMap<u64, usize>,
    /// All of them, in the order in which they were asked.
    pub(crate) remembered: Vec<Remembered>,
    /// How many more references there is room for.
    room: usize,
}

impl Memo {
    /// No recursion was asked yet.
    pub(crate) fn new(alloc: Global) -> Memo
        ensures { result.remembered.items ≡ [] }
    {
        Memo {
            places: BTreeMap::new(alloc),
            remembered: Vec::new(alloc),
            room: ROOM,
        }
    }

    /// What the recursion gave from a set, if it is remembered.
    pub(crate) fn recalled(&self, how: Recursion, set: &RefSet) -> Option<&Rc<RefSet>>
        ensures { IfSome result
            (λ found. Recalls self.now.remembered.items how set.now found.now.value) }
    {
        let place = *self.places.get(&number_of(how, set))?;
        if place >= self.remembered.len() {
            return None;
        }
        let one = &self.remembered[place];
        if one.how == how && are_same(one.start.as_slice(), set.as_slice()) {
            Some(&one.found)
        } else {
            None
        }
    }

    /// Remembers what a recursion gave from a set, if there is room for both.
    pub(crate) fn remember(
        &mut self,
        how: Recursion,
        start: Rc<RefSet>,
        found: Rc<RefSet>,
    ) -> Result<(), AllocError>
        ensures kept { (one : Remembered) → Contains self.old.remembered.items one
            → Contains self.new.remembered.items one }
        ensures added { (one : Remembered) → Contains self.new.remembered.items one
            → Contains self.old.remembered.items one ⊎ IsOf how start.value found.value one }
    {
        let size = start
            .as_slice()
            .len()
            .saturating_add(found.as_slice().len());
        if size > self.room {
            return Ok(());
        }
        let number = number_of(how, &start);
        let Ok(_before) = self.places.insert(number, self.remembered.len()) else {
            return Err(AllocError);
        };
        self.remembered.push(Remembered { how, start, found })?;
        self.room -= size;
        Ok(())
    }
}

/// Whether two lists are the same.
pub(crate) fn are_same(first: &[Ref], second: &[Ref]) -> bool
    ensures { IsTrue result ↔ (first.now ≡ second.now) }
{
    first == second
}

/// A number that two recursions rarely share.
fn number_of(how: Recursion, set: &RefSet) -> u64 {
    mixed_all(how as u64, set)
}

/// The number with the references of a set mixed in.
pub(crate) fn mixed_all(number: u64, set: &RefSet) -> u64 {
    let mut number = number;
    for name in set.as_slice() {
        number = mixed(number, name.id.cast_unsigned()).wrapping_add(name.kind as u64);
    }
    number
}

/// The number with another one mixed in.
pub(crate) fn mixed(number: u64, other: u64) -> u64 {
    // A prime near 2^64 / the golden ratio.
    (number ^ other)
        .wrapping_mul(0x9E37_79B9_7F4A_7C15)
        .rotate_left(29)
}
