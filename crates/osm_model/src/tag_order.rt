//! The order of tags: by the bytes of their keys.

ghost use Rattle.std.specs.Prelude.{◌≡◌, ◌↔◌, IsTrue, length};
ghost use Rattle.std.specs.Ordering.{nat_cmp};
ghost use Rattle.std.specs.List.{AllAdjacentBelow};
ghost use Rattle.std.specs.List.Sorted.{IsPermutation, IsSortedByKey};
ghost use Rattle.std.specs.Cmp.Lexicographic.{slice_cmp};

use crate::tag::Tag;
use std::cmp::Ordering;

/// Sorts tags by the bytes of their keys, in place and in n log n. It takes no memory.
pub fn sort_tags(tags: &mut Vec<Tag>)
    ensures permutation { IsPermutation tags.old.items tags.new.items }
    ensures sorted { IsSortedByKey (λ tag. tag.key) (slice_cmp nat_cmp) tags.new.items }
{
    tags.sort_unstable_by(|first, second| compare_keys(first, second));
}

/// Whether each key is below the next: the tags are sorted then, and no two have one key.
pub fn keys_rise(tags: &[Tag]) -> bool
    ensures { IsTrue result ↔ AllAdjacentBelow (λ first second. slice_cmp nat_cmp first.key second.key ≡ Ordering.Less) tags.now (length tags.now) }
{
    for i in 1..tags.len() {
        if !compare_keys(&tags[i - 1], &tags[i]).is_lt() {
            return false;
        }
    }
    true
}

fn compare_keys(first: &Tag, second: &Tag) -> Ordering
    ensures { result ≡ slice_cmp nat_cmp first.now.key second.now.key }
{
    first.key.as_bytes().cmp(&second.key.as_bytes())
}
