//! The order of tags by their keys.

ghost use Rattle.std.specs.Prelude.{IfSome, IfNone};
ghost use Rattle.std.specs.List.Sorted.{IsPermutation};
ghost use Rattle.osm_model.specs.Limits.{HasDistinctKeys};

use osm_model::{Tag, keys_rise, sort_tags};

/// The same tags, in an order of their own, or `None` where two have one key.
pub(crate) fn with_distinct_keys(mut tags: Vec<Tag>) -> Option<Vec<Tag>>
    ensures found { IfSome result (λ found. IsPermutation tags.items found.items
        × HasDistinctKeys found.items) }
    ensures none { IfNone result (¬ (HasDistinctKeys tags.items)) }
{
    // Most tags come in the order of their keys.
    if keys_rise(&tags) {
        return Some(tags);
    }
    sort_tags(&mut tags);
    if keys_rise(&tags) { Some(tags) } else { None }
}
