//! Readers of statements.

ghost use Rattle.std.specs.Prelude.{◌≡◌, drop};
ghost use Rattle.ql_syntax.specs.internal.Following.{Follows, Keeps};
ghost use Rattle.ql_syntax.specs.Rules.{gather};
ghost use Rattle.ql_syntax.specs.StatementRules.{block, difference, item, out_of, part, plain_statement, print, recursion, recursion_of, set_statement, set_word_statement, statement, top_statement, union, word_statement};
ghost use Rattle.ql_syntax.specs.StatementViews.{statement_of};
ghost use Rattle.ql_syntax.specs.internal.StatementReaders.{the_statement, the_other_statement, the_statements, trees_of};
ghost use Rattle.ql_syntax.specs.internal.Views.{next_of, word_of};

use crate::cause::QlCause;
use crate::level::Level;
use crate::list::appended;
use crate::name::Name;
use crate::out_options::read_out_options;
use crate::recursion::Recursion;
use crate::selection::read_selection;
use crate::statement::{Out, Stmt};
use crate::statement_word::{StatementWord, statement_word};
use crate::syntax_error::SyntaxError;
use crate::token::{Token, next_token};
use crate::token_kind::TokenKind;
use crate::token_readers::{WordSpot, name_after, pass, read_into, word_at};
use osm_model::OutMode;
use std::alloc::{AllocError, Global};

/// How many `(` of unions and differences may be open at once.
pub(crate) const NESTING_LIMIT: u32 = 32;

/// A statement at the top level, or none at the end of the query, and what is left after it.
pub(crate) fn read_top_statement(
    alloc: Global,
    text: &[u8],
) -> Result<(Option<Stmt<'_>>, &[u8]), SyntaxError<'_>>
    ensures { Follows top_statement the_other_statement text.now result }
{
    let token = next_token(text)?;
    match token.kind {
        TokenKind::End => Ok((None, &[])),
        _ => {
            let (statement, rest) = read_statement(alloc, Level::Top, NESTING_LIMIT, token.place)?;
            Ok((Some(statement), rest))
        }
    }
}

/// A statement, and what is left after its `;`. So many `(` may be opened in it.
///
/// `TooDeep` at one `(` more.
#[cycle(statement)]
fn read_statement(
    alloc: Global,
    level: Level,
    depth: u32,
    text: &[u8],
) -> Result<(Stmt<'_>, &[u8]), SyntaxError<'_>>
    ensures { Follows (statement level depth) the_statement text.now result }
{
    let token = next_token(text)?;
    match token.kind {
        TokenKind::OpenParenthesis if depth == 0 => {
            Err(SyntaxError::at(QlCause::TooDeep, token.place))
        }
        TokenKind::OpenParenthesis => read_block(alloc, depth - 1, token.rest),
        _ => read_plain_statement(alloc, level, token),
    }
}

/// The union or difference after its `(`, and what is left after its `;`.
#[cycle(statement)]
fn read_block(alloc: Global, depth: u32, text: &[u8]) -> Result<(Stmt<'_>, &[u8]), SyntaxError<'_>>
    ensures { Follows (block (statement Level.Inner depth)) the_statement text.now result }
{
    let (first, rest) = read_statement(alloc, Level::Inner, depth, text)?;
    let token = next_token(rest)?;
    match token.kind {
        TokenKind::Minus => read_difference(alloc, depth, first, token.rest),
        TokenKind::Arrow => read_difference(alloc, depth, first, after_byte(token.place)),
        _ => read_union(alloc, depth, first, token.place),
    }
}

/// The difference whose first statement and `-` have been read, and what is left after its `;`.
#[cycle(statement)]
fn read_difference<'a>(
    alloc: Global,
    depth: u32,
    left: Stmt<'a>,
    text: &'a [u8],
) -> Result<(Stmt<'a>, &'a [u8]), SyntaxError<'a>>
    ensures { Follows (difference (statement Level.Inner depth) (statement_of left.entry)) the_statement text.now result }
{
    let (right, rest) = read_statement(alloc, Level::Inner, depth, text)?;
    let rest = pass(rest, TokenKind::CloseParenthesis)?;
    let (into, rest) = read_into(rest)?;
    let left = Box::new(alloc, left).map_err(AllocError::from)?;
    let right = Box::new(alloc, right).map_err(AllocError::from)?;
    Ok((Stmt::Minus { left, right, into }, rest))
}

/// The union whose first statement has been read, and what is left after its `;`.
#[cycle(statement)]
fn read_union<'a>(
    alloc: Global,
    depth: u32,
    first: Stmt<'a>,
    text: &'a [u8],
) -> Result<(Stmt<'a>, &'a [u8]), SyntaxError<'a>>
    ensures { Follows (union (statement Level.Inner depth) (statement_of first.entry)) the_statement text.now result }
{
    let (parts, rest) = read_parts(alloc, depth, appended(Vec::new(alloc), first)?, text)?;
    let (into, rest) = read_into(rest)?;
    Ok((Stmt::Union { parts, into }, rest))
}

/// These statements and those that follow, and what is left after their `)`.
#[cycle(statement)]
fn read_parts<'a>(
    alloc: Global,
    depth: u32,
    first: Vec<Stmt<'a>>,
    text: &'a [u8],
) -> Result<(Vec<Stmt<'a>>, &'a [u8]), SyntaxError<'a>>
    ensures { Follows (gather (part (statement Level.Inner depth)) (trees_of first.entry.items)) the_statements text.now result }
{
    let mut parts = first;
    let mut place = text;
    loop {
        let (other, rest) = read_part(alloc, depth, place)?;
        place = rest;
        match other {
            Some(statement) => parts = appended(parts, statement)?,
            None => return Ok((parts, place)),
        }
    }
}

/// A statement of a union, or none at its `)`, and what is left after it.
#[cycle(statement)]
fn read_part(
    alloc: Global,
    depth: u32,
    text: &[u8],
) -> Result<(Option<Stmt<'_>>, &[u8]), SyntaxError<'_>>
    ensures { Follows (part (statement Level.Inner depth)) the_other_statement text.now result }
{
    let token = next_token(text)?;
    match token.kind {
        TokenKind::CloseParenthesis => Ok((None, token.rest)),
        _ => {
            let (statement, rest) = read_statement(alloc, Level::Inner, depth, token.place)?;
            Ok((Some(statement), rest))
        }
    }
}

/// The statement that begins with this token, which is no `(`.
fn read_plain_statement<'a>(
    alloc: Global,
    level: Level,
    token: Token<'a>,
) -> Result<(Stmt<'a>, &'a [u8]), SyntaxError<'a>>
    ensures { Follows (plain_statement level (next_of token.entry)) the_statement token.entry.rest.now result }
{
    match token.kind {
        TokenKind::Dot => {
            let (name, rest) = name_after(token)?;
            read_set_statement(level, name, rest)
        }
        TokenKind::Word => read_word_statement(alloc, level, word_at(token)),
        _ => match recursion_of(token.kind) {
            Some(how) => read_recursion(Name::default_set(), how, token.rest),
            None => Err(token.unexpected()),
        },
    }
}

/// The statement that begins with this word.
fn read_word_statement<'a>(
    alloc: Global,
    level: Level,
    word: WordSpot<'a>,
) -> Result<(Stmt<'a>, &'a [u8]), SyntaxError<'a>>
    ensures { Follows (word_statement level (word_of word.entry)) the_statement word.entry.rest.now result }
{
    match statement_word(word.word) {
        StatementWord::Kind(pick) => read_selection(alloc, pick, word.rest),
        StatementWord::Print => read_print(level, Name::default_set(), word),
        StatementWord::Unsupported => Err(SyntaxError::at(QlCause::Unsupported, word.place)),
        StatementWord::Unknown => Err(SyntaxError::at(QlCause::UnexpectedWord, word.place)),
    }
}

/// The statement that begins with the name of this set.
fn read_set_statement<'a>(
    level: Level,
    from: Name<'a>,
    text: &'a [u8],
) -> Result<(Stmt<'a>, &'a [u8]), SyntaxError<'a>>
    ensures { Keeps (set_statement level from.entry) the_statement text.now result }
{
    let token = next_token(text)?;
    match token.kind {
        TokenKind::Word => read_set_word_statement(level, from, word_at(token)),
        _ => match recursion_of(token.kind) {
            Some(how) => read_recursion(from, how, token.rest),
            None => read_item(from, token.place),
        },
    }
}

/// The statement that begins with the name of a set and this word.
fn read_set_word_statement<'a>(
    level: Level,
    from: Name<'a>,
    word: WordSpot<'a>,
) -> Result<(Stmt<'a>, &'a [u8]), SyntaxError<'a>>
    ensures { Keeps (set_word_statement level from.entry (word_of word.entry)) the_statement word.entry.rest.now result }
{
    match statement_word(word.word) {
        StatementWord::Kind(_) => Err(SyntaxError::at(QlCause::UnexpectedWord, word.place)),
        StatementWord::Print => read_print(level, from, word),
        StatementWord::Unsupported => Err(SyntaxError::at(QlCause::Unsupported, word.place)),
        StatementWord::Unknown => Err(SyntaxError::at(QlCause::UnexpectedWord, word.place)),
    }
}

/// The out statement of a set, whose word has been read. `Unsupported` at the word where it stands in a
/// union or a difference.
fn read_print<'a>(
    level: Level,
    from: Name<'a>,
    word: WordSpot<'a>,
) -> Result<(Stmt<'a>, &'a [u8]), SyntaxError<'a>>
    ensures { Keeps (print level from.entry word.entry.place.now) the_statement word.entry.rest.now result }
{
    match level {
        Level::Top => read_out(from, word.rest),
        Level::Inner => Err(SyntaxError::at(QlCause::Unsupported, word.place)),
    }
}

/// The out statement of a set, and what is left after its `;`.
fn read_out<'a>(from: Name<'a>, text: &'a [u8]) -> Result<(Stmt<'a>, &'a [u8]), SyntaxError<'a>>
    ensures { Keeps (out_of from.entry) the_statement text.now result }
{
    let (options, rest) = read_out_options(text)?;
    let mode = options.mode.unwrap_or(OutMode::Body);
    let limit = options.limit;
    Ok((Stmt::Print(Out { from, mode, limit }), rest))
}

/// The recursion from a set, whose `>`, `>>`, `<` or `<<` has been read, and what is left after its `;`.
fn read_recursion<'a>(
    from: Name<'a>,
    how: Recursion,
    text: &'a [u8],
) -> Result<(Stmt<'a>, &'a [u8]), SyntaxError<'a>>
    ensures { Keeps (recursion from.entry how) the_statement text.now result }
{
    let (into, rest) = read_into(text)?;
    Ok((Stmt::Recurse { from, how, into }, rest))
}

/// The set as a statement, whose name has been read, and what is left after its `;`.
fn read_item<'a>(from: Name<'a>, text: &'a [u8]) -> Result<(Stmt<'a>, &'a [u8]), SyntaxError<'a>>
    ensures { Keeps (item from.entry) the_statement text.now result }
{
    let (into, rest) = read_into(text)?;
    Ok((Stmt::Item { from, into }, rest))
}

/// What is left after the first byte of a text, where there is one.
fn after_byte(text: &[u8]) -> &[u8]
    ensures { result.now ≡ drop 1 text.now }
{
    match text {
        [_, rest @ ..] => rest,
        [] => text,
    }
}

/// The recursion that punctuation asks for.
fn recursion_of(kind: TokenKind) -> Option<Recursion>
    ensures { result ≡ recursion_of kind }
{
    match kind {
        TokenKind::Down => Some(Recursion::Down),
        TokenKind::DownAll => Some(Recursion::DownAll),
        TokenKind::Up => Some(Recursion::Up),
        TokenKind::UpAll => Some(Recursion::UpAll),
        _ => None,
    }
}
