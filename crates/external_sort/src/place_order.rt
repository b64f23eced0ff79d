//! The order of places in a buffer.

ghost use Rattle.std.specs.List.Sorted.{IsPermutation, IsSortedByKey};
ghost use Rattle.std.specs.Cmp.Lexicographic.{slice_cmp};
ghost use Rattle.std.specs.Ordering.{nat_cmp};
ghost use Rattle.external_sort.specs.internal.Places.{key_at};

use crate::part::part;
use crate::place::Place;

/// Sorts places by the keys that stand there.
pub(crate) fn sort_places(places: &mut [Place], bytes: &[u8])
    ensures permutation { IsPermutation places.old places.new }
    ensures sorted { IsSortedByKey (key_at bytes.now) (slice_cmp nat_cmp) places.new }
{
    places.sort_unstable_by(|one, other| {
        let key = part(bytes, one.key_start, one.value_start);
        key.cmp(part(bytes, other.key_start, other.value_start))
    });
}
