//! The set that a statement writes.

ghost use Rattle.std.specs.Prelude.{◌≡◌, IfOk};
ghost use Rattle.ql_syntax.specs.StatementViews.{statement_of};
ghost use Rattle.ql_meaning.specs.Meanings.{given_by};
ghost use Rattle.ref_sets.specs.NamedSets.{lists_of};

use ql_syntax::Stmt;
use ref_sets::{NamedSets, RefSet};
use std::alloc::{AllocError, Global};
use std::rc::Rc;

/// The set that a statement wrote, as it stands; an out wrote none.
pub(crate) fn written_by<'s>(statement: &Stmt<'_>, sets: &'s NamedSets<'_>) -> &'s RefSet
    ensures { result.now ≡ given_by (statement_of statement.now) (lists_of sets.now.named.items) }
{
    match statement {
        Stmt::Select { into, .. } => sets.get(into.as_bytes()),
        Stmt::Recurse { into, .. } => sets.get(into.as_bytes()),
        Stmt::Item { into, .. } => sets.get(into.as_bytes()),
        Stmt::Union { into, .. } => sets.get(into.as_bytes()),
        Stmt::Minus { into, .. } => sets.get(into.as_bytes()),
        Stmt::Print(_) => sets.nothing(),
    }
}

/// The set that a statement wrote, as one of its owners: it stays as it is whatever is written later. Nothing is copied.
/// Refused where memory runs out, which only an empty set takes that was never written.
pub(crate) fn shared_by(
    alloc: Global,
    statement: &Stmt<'_>,
    sets: &NamedSets<'_>,
) -> Result<Rc<RefSet>, AllocError>
    ensures { IfOk result (λ refs. refs.value
        ≡ given_by (statement_of statement.now) (lists_of sets.now.named.items)) }
{
    match statement {
        Stmt::Select { into, .. } => sets.shared(into.as_bytes()),
        Stmt::Recurse { into, .. } => sets.shared(into.as_bytes()),
        Stmt::Item { into, .. } => sets.shared(into.as_bytes()),
        Stmt::Union { into, .. } => sets.shared(into.as_bytes()),
        Stmt::Minus { into, .. } => sets.shared(into.as_bytes()),
        Stmt::Print(_) => {
            let Ok(refs) = Rc::new(alloc, RefSet::new(alloc)) else {
                return Err(AllocError);
            };
            Ok(refs)
        }
    }
}
