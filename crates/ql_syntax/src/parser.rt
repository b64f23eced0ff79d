//! Queries, read from text.

ghost use Rattle.std.specs.Prelude.{◌≡◌, ◌⊎◌, ◌-◌, List, [], length, IfOk, IfErr};
ghost use Rattle.ql_syntax.specs.internal.Following.{Follows};
ghost use Rattle.ql_syntax.specs.Queries.{HasFault, Reads, memory_fault, query};
ghost use Rattle.ql_syntax.specs.Rules.{gather};
ghost use Rattle.ql_syntax.specs.Statements.{Statements};
ghost use Rattle.ql_syntax.specs.StatementRules.{top_statement};
ghost use Rattle.ql_syntax.specs.StatementViews.{statements_of};
ghost use Rattle.ql_syntax.specs.internal.StatementReaders.{the_query, the_statements};
ghost use Rattle.ql_syntax.specs.declared.fault.QlFault.{QlFault};

use crate::cause::QlCause;
use crate::fault::QlFault;
use crate::list::appended;
use crate::query::Query;
use crate::settings::read_settings;
use crate::statement::Stmt;
use crate::statements::read_top_statement;
use crate::syntax_error::SyntaxError;
use simdutf8::compat::from_utf8;
use std::alloc::Global;

/// The most bytes that a query has.
pub(crate) const TEXT_LIMIT: usize = 65_536;

/// Reads a query: settings and statements of the profile, at most 65,536 bytes.
///
/// Refused by the first of these that holds: `TooLong` at byte 65,536; `NotUtf8` at the first byte that
/// isn't; else the first cause from the left for which the text can't go on as a query, at its place.
/// `Memory` at byte 0 where memory runs out: the same call may then be made again. It goes over the
/// text once. Its recursion is no deeper than unions and differences stand in one another, at most 32.
///
/// Source: the Overpass QL page of the OpenStreetMap wiki; which part of it is read, limits, causes and
/// places are this project's.
pub fn parse(alloc: Global, text: &[u8]) -> Result<Query<'_>, QlFault>
    // What is read is spelled so.
    ensures read { IfOk result (λ query. Reads text.now (statements_of query)) }
    // What is spelled so is read, unless memory runs out.
    ensures only { (statements : Statements) → Reads text.now statements
        → IfOk result (λ query. statements_of query ≡ statements)
        × IfErr result (λ fault. fault ≡ memory_fault) }
    // Which fault it is: out of memory, at byte 0, or the text's own.
    ensures refused { IfErr result (λ fault. (fault ≡ memory_fault) ⊎ HasFault text.now fault) }
    // What has a fault is refused with it, unless memory runs out.
    ensures faults { (fault : QlFault) → HasFault text.now fault → IfOk result (λ _. ⊥)
        × IfErr result (λ told. (told ≡ memory_fault) ⊎ (told ≡ fault)) }
{
    read_text(alloc, text)
}

/// The query that a text is, or its fault.
fn read_text(alloc: Global, text: &[u8]) -> Result<Query<'_>, QlFault>
    ensures read { IfOk result (λ query. Reads text.now (statements_of query)) }
    ensures refused { IfErr result (λ fault. (fault ≡ memory_fault) ⊎ HasFault text.now fault) }
{
    if text.len() > TEXT_LIMIT {
        return Err(QlFault {
            cause: QlCause::TooLong,
            byte: TEXT_LIMIT,
        });
    }
    if let Err(error) = from_utf8(text) {
        return Err(QlFault {
            cause: QlCause::NotUtf8,
            byte: error.valid_up_to(),
        });
    }
    match read_query(alloc, text) {
        Ok((stmts, _)) => Ok(Query::new(stmts)),
        Err(error) => Err(fault_at(text, error)),
    }
}

/// The fault of a text that can't go on at this place. Out of memory has no place.
fn fault_at(text: &[u8], error: SyntaxError<'_>) -> QlFault
    ensures cause { result.cause ≡ error.entry.cause }
    ensures memory { error.entry.cause ≡ QlCause.Memory → result.byte ≡ 0 }
    ensures byte { (error.entry.cause ≡ QlCause.Memory) ⊎ (result.byte
        ≡ length text.now - length error.entry.rest.now) }
{
    let byte = match error.cause {
        QlCause::Memory => 0,
        _ => text.len().saturating_sub(error.rest.len()),
    };
    QlFault {
        cause: error.cause,
        byte,
    }
}

/// The statements of a text, and what is left after them: nothing.
fn read_query(alloc: Global, text: &[u8]) -> Result<(Vec<Stmt<'_>>, &[u8]), SyntaxError<'_>>
    ensures { Follows query the_query text.now result }
{
    let (_, rest) = read_settings(text)?;
    read_statements(alloc, rest)
}

/// The statements up to the end of the text, perhaps none.
fn read_statements(alloc: Global, text: &[u8]) -> Result<(Vec<Stmt<'_>>, &[u8]), SyntaxError<'_>>
    ensures { Follows (gather top_statement []) the_statements text.now result }
{
    let mut statements = Vec::new(alloc);
    let mut place = text;
    loop {
        let (other, rest) = read_top_statement(alloc, place)?;
        place = rest;
        match other {
            Some(statement) => statements = appended(statements, statement)?,
            None => return Ok((statements, place)),
        }
    }
}
