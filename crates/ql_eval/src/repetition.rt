//! Whether a query may ask one query statement twice.

use ql_syntax::Stmt;

/// Whether a query has more than one query statement. A query with a single one asks nothing that it asked before.
pub(crate) fn may_repeat(statements: &[Stmt<'_>]) -> bool {
    selects_in(statements) > 1
}

/// How many query statements there are, in unions and differences too. It stays at the greatest usize.
#[cycle(selects)]
fn selects_in(statements: &[Stmt<'_>]) -> usize {
    let mut number = 0usize;
    for statement in statements {
        number = number.saturating_add(selects_of(statement));
    }
    number
}

/// How many query statements a statement has.
#[cycle(selects)]
fn selects_of(statement: &Stmt<'_>) -> usize {
    match statement {
        Stmt::Select { .. } => 1,
        Stmt::Union { parts, .. } => selects_in(parts),
        Stmt::Minus { left, right, .. } => selects_of(left).saturating_add(selects_of(right)),
        Stmt::Recurse { .. } | Stmt::Item { .. } | Stmt::Print(_) => 0,
    }
}
