//! Which filter is the base.

ghost use Rattle.std.specs.Prelude.{MatchOption};
ghost use Rattle.ql_syntax.specs.StatementViews.{filters_of};
ghost use Rattle.ql_plan.specs.Plans.{IsFirstBase, IsPlan, IsScan};

use crate::base_sort::BaseSort;
use crate::planned::Plan;
use ql_syntax::Filter;

/// The plan of a query statement with these filters: its base is the first written one of the earliest sort
/// that is there. The sorts are ids, sets, paths, `[k=v]`, `[k]` and boxes; `[!k]` and `[k!=v]` are never a
/// base. Where no filter can be one, the plan is a scan.
///
/// Takes no memory. Linear in the number of filters.
pub fn plan<'q, 's>(filters: &'s [Filter<'q>]) -> Plan<'q, 's>
    ensures { IsPlan (filters_of filters.now) result }
{
    Plan::new(filters, base_place(filters))
}

/// The place of the base; none for a scan.
fn base_place(filters: &[Filter<'_>]) -> Option<usize>
    ensures { MatchOption result (IsScan (filters_of filters.now)) (IsFirstBase (filters_of filters.now)) }
{
    let mut base = None;
    let mut earliest = BaseSort::Never;
    for (at, filter) in filters.iter().enumerate() {
        let sort = BaseSort::of(filter);
        if sort.is_before(earliest) {
            base = Some(at);
            earliest = sort;
        }
    }
    base
}
