//! Queries.

ghost use Rattle.std.specs.Prelude.{◌≡◌};
ghost use Rattle.ql_syntax.specs.LawfulQueries.{IsQuery};
ghost use Rattle.ql_syntax.specs.StatementViews.{statements_of};

use crate::statement::Stmt;
use std::marker::Model;

/// A query: its statements, in their order. It borrows the text that it was read from, but for texts
/// with escapes. Contracts see the list of its statements, and by `statements_of` their trees.
///
/// It keeps that unions and differences stand at most 32 deep in one another, out statements at the top
/// level alone, and boxes and paths on the kinds that allow them, that a list of ids and a union have one
/// or more, and that no key or value has a NUL (`IsQuery`).
#[derive(Debug, Drop)]
pub struct Query<'a> {
    stmts: Vec<Stmt<'a>>,
}

impl<'a> Model for Query<'a> {
    ghost use Rattle.std.specs.Coded.{codes};
    ghost use mir.Syntax.{named};
    ghost use Rattle.std.specs.Prelude.{List, []};
    ghost use Rattle.ql_syntax.specs.contracts.statement.Stmt as statements;
    ghost use Rattle.ql_syntax.specs.declared.statement.Stmt.{Stmt};

    ghost Value = { List Stmt };

    ghost coded = { Prim.hlevel (codes, (statements.the_row (record { mir = named 0; lft = [] })).coded) };

    ghost view = { λ a. a.stmts.items };

    ghost use Rattle.ql_syntax.specs.LawfulQueries.{IsQuery};
    ghost use Rattle.ql_syntax.specs.StatementViews.{statements_of};

    ghost invariant = { λ a. IsQuery (statements_of a.stmts.items) };
}

impl<'a> Query<'a> {
    /// The query of these statements.
    pub(crate) fn new(stmts: Vec<Stmt<'a>>) -> Query<'a>
        requires { IsQuery (statements_of stmts.items) }
        ensures { result ≡ stmts.entry.items }
    {
        Query { stmts }
    }

    /// Its statements, in their order.
    pub fn stmts(&self) -> &[Stmt<'a>]
        ensures statements { result.now ≡ self.now }
        // As its type says.
        ensures kept { IsQuery (statements_of self.now) }
    {
        &self.stmts
    }
}
