//! What the filters of a query statement read.

ghost use Rattle.std.specs.Prelude.{◌≡◌, ◌≤◌, ◌+◌, ◌*◌, ◌++◌, IfOk, OnOk};
ghost use Rattle.ql_syntax.specs.StatementViews.{filter_of, filters_of};
ghost use Rattle.ref_sets.specs.NamedSets.{lists_of};
ghost use Rattle.ql_eval.specs.Work.{read_by, read_by_all, step_cost};
ghost use Rattle.ql_eval.specs.internal.Metering.{IsCounted};
ghost use Rattle.ql_eval.specs.internal.Recalling.{set_read, sets_in, sets_read};

use crate::meter::Meter;
use ql_syntax::Filter;
use ref_sets::{NamedSets, RefSet};
use std::alloc::{AllocError, Global};
use std::rc::Rc;

/// Counts a step for each filter, for each id that is written in it, and for each reference of the named set that it reads.
/// Refused where the budget is passed.
pub(crate) fn charge_filters(
    meter: &mut Meter,
    filters: &[Filter<'_>],
    sets: &NamedSets<'_>,
) -> Result<(), AllocError>
    ensures bounded { meter.new.spent ≤ meter.old.spent
        + step_cost * read_by_all (lists_of sets.now.named.items) (filters_of filters.now) }
    ensures spent { OnOk result (IsCounted meter.old.spent meter.new.spent
        (step_cost * read_by_all (lists_of sets.now.named.items) (filters_of filters.now))) }
{
    for filter in filters {
        meter.charge_more(size_read(filter, sets))?;
    }
    Ok(())
}

/// How many ids or references of a named set a filter reads.
fn size_read(filter: &Filter<'_>, sets: &NamedSets<'_>) -> usize
    ensures { result ≡ read_by (lists_of sets.now.named.items) (filter_of filter.now) }
{
    match filter {
        Filter::Ids(ids) => ids.len(),
        Filter::InSet(name) => sets.get(name.as_bytes()).as_slice().len(),
        Filter::Via(_, name) => sets.get(name.as_bytes()).as_slice().len(),
        _ => 0,
    }
}

/// The named sets that filters read, in the order of the filters. Nothing is copied.
pub(crate) fn sets_read(
    alloc: Global,
    filters: &[Filter<'_>],
    sets: &NamedSets<'_>,
) -> Result<Vec<Rc<RefSet>>, AllocError>
    ensures { IfOk result (λ reads. sets_in reads.items
        ≡ sets_read (lists_of sets.now.named.items) (filters_of filters.now)) }
{
    let mut reads = Vec::new(alloc);
    for filter in filters {
        add_read(filter, sets, &mut reads)?;
    }
    Ok(reads)
}

/// Adds the named set that a filter reads, if it reads one.
fn add_read(
    filter: &Filter<'_>,
    sets: &NamedSets<'_>,
    reads: &mut Vec<Rc<RefSet>>,
) -> Result<(), AllocError>
    ensures { OnOk result (sets_in reads.new.items
        ≡ sets_in reads.old.items ++ set_read (lists_of sets.now.named.items) (filter_of filter.now)) }
{
    match filter {
        Filter::InSet(name) => {
            reads.push(sets.shared(name.as_bytes())?)?;
            Ok(())
        }
        Filter::Via(_, name) => {
            reads.push(sets.shared(name.as_bytes())?)?;
            Ok(())
        }
        _ => Ok(()),
    }
}
