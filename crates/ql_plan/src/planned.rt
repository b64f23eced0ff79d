//! Plans.

ghost use Rattle.std.specs.Prelude.{◌≡◌, ◌<◌, ◌↔◌, ◌≢◌, [], IfOk, IsOk, IsTrue, length, map};
ghost use Rattle.std.specs.Option.{ForSome, option_map};
ghost use Rattle.ql_syntax.specs.StatementViews.{filter_of, filters_of};
ghost use Rattle.ql_plan.specs.Plans.{IsChosen, rivals_of};
ghost use Rattle.ql_plan.specs.Parted.{parted};

use crate::counting::{counted, counted_len, counted_place, is_counted, least_place};
use ql_syntax::Filter;
use std::alloc::{AllocError, Global};
use std::marker::Model;

/// How a query statement is answered: its base, and the rest of its filters. Contracts see the filters before
/// the base, the base and the filters after it, which in this order are the statement's filters.
///
/// The base says which ranges of keys are read, and the rest is tested on what was found. A plan without a
/// base is a scan, and has all filters before it. It borrows the filters.
#[derive(Debug, Drop)]
pub struct Plan<'q, 's> {
    filters: &'s [Filter<'q>],
    // The base's place.
    base: Option<usize>,
}

impl<'q, 's> Model for Plan<'q, 's> {
    ghost use Rattle.std.specs.Prelude.{◌<◌, length};
    ghost use Rattle.std.specs.Option.{ForSome};
    ghost use Rattle.ql_syntax.specs.StatementViews.{filters_of};
    ghost use Rattle.ql_plan.specs.Plans.{Planned};
    ghost use Rattle.ql_plan.specs.Parted.{parted};

    ghost Value = { Planned };

    ghost view = { λ a. parted (filters_of a.filters.now) a.base };

    ghost invariant = { λ a. ForSome a.base (λ at. at < length a.filters.now) };
}

impl<'q, 's> Plan<'q, 's> {
    /// The filters that are written before the base. In a scan all of them.
    pub fn before(&self) -> &'s [Filter<'q>]
        ensures { filters_of result.now ≡ self.now.before }
    {
        match self.base {
            Some(at) => &self.filters[..at],
            None => self.filters,
        }
    }

    /// The base; none in a scan.
    pub fn base(&self) -> Option<&'s Filter<'q>>
        ensures { option_map (λ f. filter_of f.now) result ≡ self.now.base }
    {
        match self.base {
            Some(at) => self.filters.get(at),
            None => None,
        }
    }

    /// The filters that are written after the base. In a scan none.
    pub fn after(&self) -> &'s [Filter<'q>]
        ensures { filters_of result.now ≡ self.now.after }
    {
        match self.base {
            Some(at) => &self.filters[at + 1..],
            None => &[],
        }
    }

    /// Whether there are rivals: the base is `[k=v]` or `[k]`, and the statement has more filters of these
    /// two sorts.
    ///
    /// Takes no memory. Linear in the number of filters.
    pub fn has_rivals(&self) -> bool
        ensures { IsTrue result ↔ (rivals_of self.now ≢ []) }
    {
        match self.base() {
            Some(base) => is_counted(base) && counted_len(self.filters) >= 2,
            None => false,
        }
    }

    /// The filters whose entries are to be counted before one of them is taken as the base: where there are
    /// rivals, all filters `[k=v]` and `[k]`, in written order, and else none.
    ///
    /// Refused where memory runs out. Without rivals it takes none and gives an empty vector.
    pub fn rivals(&self, alloc: Global) -> Result<Vec<&'s Filter<'q>>, AllocError>
        ensures rivals { IfOk result (λ rivals. map (λ f. filter_of f.now) rivals.items ≡ rivals_of self.now) }
        ensures none { rivals_of self.now ≡ [] → IsOk result }
    {
        if !self.has_rivals() {
            return Ok(Vec::new(alloc));
        }
        counted(alloc, self.filters)
    }

    /// The plan whose base is the first rival with the least count; without rivals the plan as it is. The
    /// counts are those of the rivals, in their order.
    ///
    /// Takes no memory. Linear in the number of filters.
    pub fn choose(self, counts: &[u64]) -> Plan<'q, 's>
        requires { length counts.now ≡ length (rivals_of self) }
        ensures { IsChosen self.entry counts.now result }
    {
        match least_place(counts) {
            Some(least) => Plan::new(self.filters, counted_place(self.filters, least)),
            None => self,
        }
    }

    /// The plan of these filters with the base at this place, or the scan.
    pub(crate) fn new(filters: &'s [Filter<'q>], base: Option<usize>) -> Plan<'q, 's>
        requires { ForSome base (λ at. at < length filters.now) }
        ensures { result ≡ parted (filters_of filters.now) base }
    {
        Plan { filters, base }
    }
}
