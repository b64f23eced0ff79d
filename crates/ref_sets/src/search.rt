//! Searches in rising lists that start where an earlier one ended.

ghost use Rattle.std.specs.Prelude.{◌≡◌, ◌≤◌, ◌↔◌, IsTrue, length};
ghost use Rattle.std.specs.List.{Contains};
ghost use Rattle.std.specs.List.Sorted.{IsStrictlySortedBy};
ghost use Rattle.osm_model.specs.Elements.{ref_cmp};
ghost use Rattle.ref_sets.specs.internal.Seeking.{AreAfter, AreBefore, IsAround, IsSought};

use osm_model::Ref;
use std::cmp::Ordering;

/// Where a reference is in a rising list, and whether it is there. Where it isn't, the index is next to where it would be.
///
/// The search starts at `at` and doubles its steps, so it takes time logarithmic in the distance to the reference. Looking
/// up rising references, each from the index of the one before, takes constant time each where all are there, and about
/// that of a binary search each where they are few among many.
pub(crate) fn seek(refs: &[Ref], at: usize, name: Ref) -> (usize, bool)
    requires rising { IsStrictlySortedBy ref_cmp refs.now }
    requires within { at ≤ length refs.now }
    ensures { IsSought refs.now name result.0 result.1 }
{
    if at == refs.len() {
        let (low, high) = fall(refs, at, name);
        return narrow(refs, low, high, name);
    }
    match compare(refs[at], name) {
        Ordering::Equal => (at, true),
        Ordering::Less => {
            let (low, high) = rise(refs, at + 1, name);
            narrow(refs, low, high, name)
        }
        Ordering::Greater => {
            let (low, high) = fall(refs, at, name);
            narrow(refs, low, high, name)
        }
    }
}

/// Whether a reference is in a list that rises, and from where to search for one that is above it. Where both lists rise
/// and most is in both, each search ends at once.
pub(crate) fn step_to(refs: &[Ref], at: usize, name: Ref) -> (usize, bool)
    requires rising { IsStrictlySortedBy ref_cmp refs.now }
    requires within { at ≤ length refs.now }
    ensures within { result.0 ≤ length refs.now }
    ensures told { IsTrue result.1 ↔ Contains refs.now name }
{
    let (place, is_there) = seek(refs, at, name);
    if is_there {
        (place.saturating_add(1), true)
    } else {
        (place, false)
    }
}

/// Goes up from a place before which all is below the reference.
fn rise(refs: &[Ref], from: usize, name: Ref) -> (usize, usize)
    requires rising { IsStrictlySortedBy ref_cmp refs.now }
    requires within { from ≤ length refs.now }
    requires before { AreBefore refs.now name from }
    ensures { IsAround refs.now name result.0 result.1 }
{
    let mut low = from;
    let mut step: usize = 1;
    while step <= refs.len() - low {
        let probe = low + (step - 1);
        match compare(refs[probe], name) {
            Ordering::Less => low = probe + 1,
            Ordering::Equal => return (probe, probe + 1),
            Ordering::Greater => return (low, probe),
        }
        step = step.saturating_mul(2);
    }
    (low, refs.len())
}

/// Goes down from a place from which on all is above the reference.
fn fall(refs: &[Ref], from: usize, name: Ref) -> (usize, usize)
    requires rising { IsStrictlySortedBy ref_cmp refs.now }
    requires within { from ≤ length refs.now }
    requires after { AreAfter refs.now name from }
    ensures { IsAround refs.now name result.0 result.1 }
{
    let mut high = from;
    let mut step: usize = 1;
    while step <= high {
        let probe = high - step;
        match compare(refs[probe], name) {
            Ordering::Less => return (probe + 1, high),
            Ordering::Equal => return (probe, probe + 1),
            Ordering::Greater => high = probe,
        }
        step = step.saturating_mul(2);
    }
    (0, high)
}

/// Looks between two places. A binary search.
fn narrow(refs: &[Ref], from: usize, end: usize, name: Ref) -> (usize, bool)
    requires rising { IsStrictlySortedBy ref_cmp refs.now }
    requires around { IsAround refs.now name from end }
    ensures { IsSought refs.now name result.0 result.1 }
{
    let mut low = from;
    let mut high = end;
    while low < high {
        let middle = low + (high - low) / 2;
        match compare(refs[middle], name) {
            Ordering::Less => low = middle + 1,
            Ordering::Equal => return (middle, true),
            Ordering::Greater => high = middle,
        }
    }
    (low, false)
}

/// How two references compare.
pub(crate) fn compare(first: Ref, second: Ref) -> Ordering
    ensures { result ≡ ref_cmp first second }
{
    first.cmp(&second)
}
