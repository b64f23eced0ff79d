//! The ranges of keys in which questions about a set of objects are answered.

ghost use Rattle.std.specs.Prelude.{◌≡◌, ◌++◌, ◌≤◌, ◌<◌, IfOk, IsTrue, List, drop, length, take, true, false, OnOk};
ghost use Rattle.tree_walk.specs.Ranges.{IsIn, range_of, IsAtMost, Range};
ghost use Rattle.osm_keys.specs.Ranges.{back_range, cell_range, kind_range, object_range, tag_key_range, tag_range, under_all};

use crate::keys::{append_ended, cell_bytes, reference_key};
use osm_model::{Kind, Ref};
use std::alloc::{AllocError, Global};
use std::marker::Model;
use tree_walk::KeyRange;

/// A range of keys that owns its ends: `as_range` lends it to a walk. It is never empty, since its low
/// end is in it. Contracts see its ends.
#[derive(Debug, Drop)]
pub struct OwnedRange {
    // Both ends: the low one in front, the high one at the end, and both the same bytes where they are
    // equal.
    ends: Vec<u8>,
    lo_end: usize,
    hi_start: usize,
    under: bool,
}

impl Model for OwnedRange {
    ghost use Rattle.std.specs.Prelude.{◌≤◌, drop, length, take};
    ghost use Rattle.tree_walk.specs.Ranges.{IsIn, Range};

    ghost Value = { Range };

    ghost view = { λ a. record { lo = take a.lo_end a.ends.items; hi = drop a.hi_start a.ends.items; under = a.under } };

    ghost invariant = { λ a. (a.lo_end ≤ length a.ends.items) × (a.hi_start ≤ length a.ends.items) × IsIn (record { lo = take a.lo_end a.ends.items; hi = drop a.hi_start a.ends.items; under = a.under }) (take a.lo_end a.ends.items) };
}

impl OwnedRange {
    /// The range, with its ends borrowed.
    pub fn as_range(&self) -> KeyRange<'_>
        ensures value { range_of result ≡ self.now }
        ensures some { IsIn self.now self.now.lo }
    {
        KeyRange {
            lo: &self.ends[..self.lo_end],
            hi: &self.ends[self.hi_start..],
            under: self.under,
        }
    }

    /// The range of the cells of a row from one column to another.
    pub(crate) fn of_cells(
        alloc: Global,
        row: u16,
        first: u16,
        last: u16,
    ) -> Result<OwnedRange, AllocError>
        requires { first ≤ last }
        ensures { IfOk result (λ range. range ≡ cell_range row (first, last)) }
    {
        let [a, b, c, d] = cell_bytes(row, first);
        let [e, f, g, h] = cell_bytes(row, last);
        let ends = Vec::from_slice(alloc, &[a, b, c, d, e, f, g, h])?;
        Ok(OwnedRange {
            ends,
            lo_end: 4,
            hi_start: 4,
            under: true,
        })
    }

    /// The range whose two ends are these bytes.
    fn at(ends: Vec<u8>, under: bool) -> OwnedRange
        ensures { result ≡ record { lo = ends.items; hi = ends.items; under = under } }
    {
        let lo_end = ends.len();
        OwnedRange {
            ends,
            lo_end,
            hi_start: 0,
            under,
        }
    }
}

/// The range of the object tree that asks for one object: its key alone.
pub fn object_range(alloc: Global, name: Ref) -> Result<OwnedRange, AllocError>
    ensures { IfOk result (λ range. range ≡ object_range name) }
{
    let ends = Vec::from_slice(alloc, &reference_key(name))?;
    Ok(OwnedRange::at(ends, false))
}

/// The range of the object tree that asks for all objects of a kind.
pub fn kind_range(alloc: Global, kind: Kind) -> Result<OwnedRange, AllocError>
    ensures { IfOk result (λ range. range ≡ kind_range kind) }
{
    let ends = Vec::from_slice(alloc, &[kind as u8])?;
    Ok(OwnedRange::at(ends, true))
}

/// The range of the tag tree that asks for the objects of a kind, or of all kinds, that have a tag. Keys
/// and values with a NUL are in no tag of an object; for them the range may take in other keys.
pub fn tag_range(
    alloc: Global,
    key: &[u8],
    value: &[u8],
    kind: Option<Kind>,
) -> Result<OwnedRange, AllocError>
    ensures { IfOk result (λ range. range ≡ tag_range key.now value.now kind) }
{
    let mut ends = Vec::new(alloc);
    append_ended(key, &mut ends)?;
    append_ended(value, &mut ends)?;
    if let Some(kind) = kind {
        ends.push(kind as u8)?;
    }
    Ok(OwnedRange::at(ends, true))
}

/// The range of the tag tree that asks for the objects of all kinds that have a key. A key with a NUL
/// is in no tag of an object; for it the range may take in other keys.
pub fn tag_key_range(alloc: Global, key: &[u8]) -> Result<OwnedRange, AllocError>
    ensures { IfOk result (λ range. range ≡ tag_key_range key.now) }
{
    let mut ends = Vec::new(alloc);
    append_ended(key, &mut ends)?;
    Ok(OwnedRange::at(ends, true))
}

/// The range of the back tree that asks for the objects of a kind, or of all kinds, that list an object.
/// That object needn't be in the set.
pub fn back_range(alloc: Global, target: Ref, kind: Option<Kind>) -> Result<OwnedRange, AllocError>
    ensures { IfOk result (λ range. range ≡ back_range target kind) }
{
    let mut ends = Vec::from_slice(alloc, &reference_key(target))?;
    if let Some(kind) = kind {
        ends.push(kind as u8)?;
    }
    Ok(OwnedRange::at(ends, true))
}
