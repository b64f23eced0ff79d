//! Statements that write sets.

ghost use Rattle.std.specs.Prelude.{◌≡◌, ◌++◌, IfOk, OnOk};
ghost use Rattle.ql_syntax.specs.StatementViews.{statement_of, statements_of};
ghost use Rattle.ql_meaning.specs.Meanings.{After, AfterAll};
ghost use Rattle.ref_sets.specs.NamedSets.{lists_of};

use crate::recurse::recurse;
use crate::select::select;
use crate::written::written_by;
use osm_model::{ObjectSet, Ref};
use ql_syntax::Stmt;
use ref_sets::{NamedSets, RefSet};
use std::alloc::{AllocError, Global};

/// Runs a statement: the set that it writes is written. An out writes none.
#[cycle(run)]
pub(crate) fn run<'q>(
    alloc: Global,
    statement: &Stmt<'q>,
    sets: &mut NamedSets<'q>,
    set: &ObjectSet,
) -> Result<(), AllocError>
    ensures { OnOk result (After set.now (statement_of statement.now) (lists_of sets.old.named.items) (lists_of sets.new.named.items)) }
{
    match statement {
        Stmt::Select {
            kind,
            filters,
            into,
        } => {
            let refs = select(alloc, *kind, filters, sets, set)?;
            sets.write(into.as_bytes(), refs)
        }
        Stmt::Recurse { from, how, into } => {
            let refs = recurse(alloc, *how, sets.get(from.as_bytes()), set)?;
            sets.write(into.as_bytes(), refs)
        }
        Stmt::Item { from, into } => {
            let refs = sets.get(from.as_bytes()).copy(alloc)?;
            sets.write(into.as_bytes(), refs)
        }
        Stmt::Union { parts, into } => {
            let given = run_all(alloc, parts, sets, set)?;
            let refs = RefSet::from_refs(given);
            sets.write(into.as_bytes(), refs)
        }
        Stmt::Minus { left, right, into } => {
            run(alloc, left, sets, set)?;
            let first = written_by(left, sets).copy(alloc)?;
            run(alloc, right, sets, set)?;
            let refs = first.difference(alloc, written_by(right, sets))?;
            sets.write(into.as_bytes(), refs)
        }
        Stmt::Print(_) => Ok(()),
    }
}

/// Runs statements in order, and gives what they wrote, one after the other.
#[cycle(run)]
fn run_all<'q>(
    alloc: Global,
    parts: &[Stmt<'q>],
    sets: &mut NamedSets<'q>,
    set: &ObjectSet,
) -> Result<Vec<Ref>, AllocError>
    ensures { IfOk result
        (λ given. AfterAll set.now (statements_of parts.now) (lists_of sets.old.named.items) (lists_of sets.new.named.items) given.items) }
{
    let mut given = Vec::new(alloc);
    for part in parts {
        run(alloc, part, sets, set)?;
        given.extend_from_slice(written_by(part, sets).as_slice())?;
    }
    Ok(given)
}
