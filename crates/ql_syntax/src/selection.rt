//! Query statements.

ghost use Rattle.std.specs.Prelude.{◌≡◌, ◌++◌, ◌∷◌, [], IfOk};
ghost use Rattle.ql_syntax.specs.internal.FilterReaders.{the_other_filter, the_filters};
ghost use Rattle.ql_syntax.specs.internal.Following.{Follows};
ghost use Rattle.ql_syntax.specs.Rules.{gather};
ghost use Rattle.ql_syntax.specs.Selections.{a_filter, selection};
ghost use Rattle.ql_syntax.specs.internal.StatementReaders.{the_statement};

use crate::filter::Filter;
use crate::list::{appended, list_of};
use crate::pick::Pick;
use crate::selector::read_selector;
use crate::statement::Stmt;
use crate::syntax_error::SyntaxError;
use crate::tag_filter::read_tag_filter;
use crate::token::next_token;
use crate::token_kind::TokenKind;
use crate::token_readers::{name_after, read_into};
use std::alloc::{AllocError, Global};

/// The query statement after the word of its kind, and what is left after its `;`.
pub(crate) fn read_selection(
    alloc: Global,
    kind: Pick,
    text: &[u8],
) -> Result<(Stmt<'_>, &[u8]), SyntaxError<'_>>
    ensures { Follows (selection kind) the_statement text.now result }
{
    let (filters, rest) = read_filters(alloc, kind, text)?;
    let (into, rest) = read_into(rest)?;
    Ok((
        Stmt::Select {
            kind,
            filters,
            into,
        },
        rest,
    ))
}

/// The filters on objects of this kind, perhaps none, and what is left after them.
fn read_filters(
    alloc: Global,
    kind: Pick,
    text: &[u8],
) -> Result<(Vec<Filter<'_>>, &[u8]), SyntaxError<'_>>
    ensures { Follows (gather (a_filter kind) []) the_filters text.now result }
{
    let mut filters = Vec::new(alloc);
    let mut place = text;
    loop {
        let (other, rest) = read_filter(alloc, kind, place)?;
        place = rest;
        match other {
            Some(filter) => filters = with_filter(alloc, filters, filter, place)?,
            None => return Ok((filters, place)),
        }
    }
}

/// The filters with this one, which this rest follows, after the others.
#[inline(always)]
fn with_filter<'a>(
    alloc: Global,
    filters: Vec<Filter<'a>>,
    filter: Filter<'a>,
    rest: &'a [u8],
) -> Result<Vec<Filter<'a>>, AllocError>
    ensures { IfOk result (λ more. more.items ≡ filters.entry.items ++ filter.entry ∷ []) }
{
    if filters.is_empty() {
        list_of(alloc, filter, room_before(rest))
    } else {
        appended(filters, filter)
    }
}

/// For how many filters the first one, which this rest follows, makes room: for itself alone where the
/// statement ends, as most do, and else for all that most statements have.
fn room_before(rest: &[u8]) -> usize {
    match rest {
        [b';', ..] => 1,
        _ => 3,
    }
}

/// A filter, or none where something else comes next, and what is left from there on.
fn read_filter(
    alloc: Global,
    kind: Pick,
    text: &[u8],
) -> Result<(Option<Filter<'_>>, &[u8]), SyntaxError<'_>>
    ensures { Follows (a_filter kind) the_other_filter text.now result }
{
    let token = next_token(text)?;
    match token.kind {
        TokenKind::Dot => {
            let (name, rest) = name_after(token)?;
            Ok((Some(Filter::InSet(name)), rest))
        }
        TokenKind::OpenBracket => {
            let (filter, rest) = read_tag_filter(alloc, token.rest)?;
            Ok((Some(filter), rest))
        }
        TokenKind::OpenParenthesis => {
            let (filter, rest) = read_selector(alloc, kind, token.rest)?;
            Ok((Some(filter), rest))
        }
        _ => Ok((None, token.place)),
    }
}
