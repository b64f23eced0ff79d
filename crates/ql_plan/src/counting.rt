//! Filters whose entries can be counted.

ghost use Rattle.std.specs.Prelude.{◌≡◌, ◌≤◌, [], IfOk, MatchOption, filter, length, map};
ghost use Rattle.ql_syntax.specs.StatementViews.{filter_of, filters_of};
ghost use Rattle.ql_plan.specs.Plans.{IsLeastCount, is_counted as is_counted_filter};
ghost use Rattle.ql_plan.specs.internal.Places.{IsCountedPlace};

use ql_syntax::Filter;
use std::alloc::{AllocError, Global};

/// Whether the filter is `[k=v]` or `[k]`: where two or more of a statement are, they are counted before one
/// of them is taken as the base.
pub fn is_counted(filter: &Filter<'_>) -> bool
    ensures { result ≡ is_counted_filter (filter_of filter.now) }
{
    match filter {
        Filter::KeyIs(_, _) | Filter::HasKey(_) => true,
        Filter::InSet(_)
        | Filter::LacksKey(_)
        | Filter::KeyIsNot(_, _)
        | Filter::Ids(_)
        | Filter::Within(_)
        | Filter::Via(_, _) => false,
    }
}

/// How many filters are counted.
pub(crate) fn counted_len(filters: &[Filter<'_>]) -> usize
    ensures { result ≡ length (filter is_counted_filter (filters_of filters.now)) }
{
    let mut counted = 0;
    for filter in filters {
        if is_counted(filter) {
            counted += 1;
        }
    }
    counted
}

/// The filters that are counted, in their order.
pub(crate) fn counted<'q, 's>(
    alloc: Global,
    filters: &'s [Filter<'q>],
) -> Result<Vec<&'s Filter<'q>>, AllocError>
    ensures { IfOk result (λ counted. map (λ f. filter_of f.now) counted.items ≡ filter is_counted_filter (filters_of filters.now)) }
{
    let mut counted = Vec::new(alloc);
    for filter in filters {
        if is_counted(filter) {
            counted.push(filter)?;
        }
    }
    Ok(counted)
}

/// The place of the filter that is counted after so many others.
pub(crate) fn counted_place(filters: &[Filter<'_>], others: usize) -> Option<usize>
    ensures { MatchOption result (length (filter is_counted_filter (filters_of filters.now)) ≤ others) (IsCountedPlace (filters_of filters.now) others) }
{
    let mut seen = 0;
    for (at, filter) in filters.iter().enumerate() {
        if is_counted(filter) {
            if seen == others {
                return Some(at);
            }
            seen += 1;
        }
    }
    None
}

/// The place of the first of the least counts; none where there are no counts.
pub(crate) fn least_place(counts: &[u64]) -> Option<usize>
    ensures { MatchOption result (counts.now ≡ []) (IsLeastCount counts.now) }
{
    let mut least = 0;
    let mut fewest = *counts.first()?;
    for (at, count) in counts.iter().enumerate() {
        if *count < fewest {
            least = at;
            fewest = *count;
        }
    }
    Some(least)
}
