//! The answer to every query.

ghost use Rattle.std.specs.Prelude.{◌≡◌, ◌++◌, IfOk, OnOk};
ghost use Rattle.ql_syntax.specs.StatementViews.{statement_of, statements_of};
ghost use Rattle.ql_meaning.specs.Meanings.{After, Means, told};
ghost use Rattle.ref_sets.specs.NamedSets.{lists_of};

use crate::print::print;
use crate::run::run;
use osm_model::ObjectSet;
use ql_syntax::{Query, Stmt};
use ref_sets::NamedSets;
use std::alloc::{AllocError, Global};

/// The answer to a query over a set of objects: what its outs print, one after the other, as OPL, a line an
/// object. It is what faster answers are compared with.
///
/// Each filter takes a pass over all objects, or over all links of membership and a sort of them; so does each
/// recursion, along chains of any length and cycles too. Refused only where memory runs out.
pub fn answer_plain(
    alloc: Global,
    query: &Query<'_>,
    set: &ObjectSet,
) -> Result<Vec<u8>, AllocError>
    ensures { IfOk result (λ text. Means set.now (statements_of query.now) text.items) }
{
    let mut sets = NamedSets::new(alloc);
    let mut text = Vec::new(alloc);
    let statements = query.stmts();
    for statement in statements {
        answer_statement(alloc, statement, &mut sets, set, &mut text)?;
    }
    Ok(text)
}

/// Runs a statement, and appends what it prints.
fn answer_statement<'q>(
    alloc: Global,
    statement: &Stmt<'q>,
    sets: &mut NamedSets<'q>,
    set: &ObjectSet,
    text: &mut Vec<u8>,
) -> Result<(), AllocError>
    ensures after { OnOk result (After set.now (statement_of statement.now) (lists_of sets.old.named.items) (lists_of sets.new.named.items)) }
    ensures told { OnOk result (text.new.items ≡ text.old.items
        ++ told set.now (statement_of statement.now) (lists_of sets.old.named.items)) }
{
    match statement {
        Stmt::Print(out) => print(
            set,
            sets.get(out.from.as_bytes()),
            out.mode,
            out.limit,
            text,
        ),
        _ => run(alloc, statement, sets, set),
    }
}
