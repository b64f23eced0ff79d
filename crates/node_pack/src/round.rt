//! The places that are expected in one round.

ghost use Rattle.std.specs.List.{AllByRecursion};
ghost use Rattle.std.specs.Prelude.{◌≡◌, ◌↔◌, ◌≤◌, ◌+◌, ℕ, IfOk, IsTrue, List, OnOk};
ghost use Rattle.node_pack.specs.internal.Stepping.{ArePlacesOf, IsBroughtAt, new_at, new_places_of};

use crate::place::Place;
use crate::read_at::ReadAt;
use crate::step::Step;
use std::alloc::{AllocError, Global};
use std::collections::{HashMap, HashSet};
use tree_node::Digest;

/// Where the records of these nodes stand, each once, in their order in the file: those that stand in this file of so many
/// bytes, and that weren't brought before.
pub(crate) fn new_places(
    alloc: Global,
    steps: &[Step<'_>],
    size: u64,
    known: &HashMap<Digest, Place>,
    brought: &HashSet<u64>,
) -> Result<Vec<Place>, AllocError>
    ensures { IfOk result
        (λ places. ArePlacesOf (new_places_of size known.now brought.now steps.now) places.items) }
{
    let mut places = list_new(alloc, steps, size, known, brought)?;
    places.sort_unstable();
    places.dedup();
    Ok(places)
}

/// The same places in the order of the nodes, some of them perhaps several times.
fn list_new(
    alloc: Global,
    steps: &[Step<'_>],
    size: u64,
    known: &HashMap<Digest, Place>,
    brought: &HashSet<u64>,
) -> Result<Vec<Place>, AllocError>
    ensures { IfOk result
        (λ places. places.items ≡ new_places_of size known.now brought.now steps.now) }
{
    let mut places = Vec::new(alloc);
    for step in steps {
        if let Some(place) = new_place(step, size, known, brought) {
            places.push(place)?;
        }
    }
    Ok(places)
}

/// Where the record of a node stands, if it is in the file and wasn't brought before.
fn new_place(
    step: &Step<'_>,
    size: u64,
    known: &HashMap<Digest, Place>,
    brought: &HashSet<u64>,
) -> Option<Place>
    ensures { result ≡ new_at size known.now brought.now step.now }
{
    let place = *known.get(&step.key)?;
    if !is_within(place, size) {
        return None;
    }
    if brought.contains(&place.at) {
        return None;
    }
    Some(place)
}

/// Whether a file of this many bytes has all of a record.
fn is_within(place: Place, size: u64) -> bool
    ensures { IsTrue result ↔ (place.at + place.len ≤ size) }
{
    place.at <= size && u64::from(place.len) <= size - place.at
}

/// Tells a device that these records will be read, if there are any.
pub(crate) fn tell<F: ReadAt>(file: &mut F, places: &[Place])
    ensures { (bytes : List ℕ) → F.reads file.old bytes → F.reads file.new bytes }
{
    if !places.is_empty() {
        file.expect(places);
    }
}

/// Remembers that these records were brought.
pub(crate) fn mark(places: &[Place], brought: &mut HashSet<u64>) -> Result<(), AllocError>
    ensures grows { (at : ℕ) → IsBroughtAt brought.old at → IsBroughtAt brought.new at }
    ensures marked { OnOk result
        (AllByRecursion (λ place. IsBroughtAt brought.new place.at) places.now) }
{
    for place in places {
        brought.insert(place.at)?;
    }
    Ok(())
}
