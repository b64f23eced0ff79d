//! The set that a statement writes.

ghost use Rattle.std.specs.Prelude.{◌≡◌, IfNone, IfSome, []};
ghost use Rattle.ql_syntax.specs.StatementViews.{statement_of};
ghost use Rattle.ql_meaning.specs.Meanings.{given_by};
ghost use Rattle.ref_sets.specs.NamedSets.{lists_of};

use ql_syntax::Stmt;
use ref_sets::{NamedSets, RefSet};

/// The set that a statement wrote, as it stands; an out wrote none.
pub(crate) fn written_by<'s>(statement: &Stmt<'_>, sets: &'s NamedSets<'_>) -> &'s RefSet
    ensures { result.now ≡ given_by (statement_of statement.now) (lists_of sets.now.named.items) }
{
    match statement {
        Stmt::Select { into, .. } => sets.get(into.as_bytes()),
        Stmt::Recurse { into, .. } => sets.get(into.as_bytes()),
        Stmt::Item { into, .. } => sets.get(into.as_bytes()),
        Stmt::Union { into, .. } => sets.get(into.as_bytes()),
        Stmt::Minus { into, .. } => sets.get(into.as_bytes()),
        Stmt::Print(_) => sets.nothing(),
    }
}
