//! Filters by tags.

ghost use Rattle.ql_syntax.specs.internal.Following.{Follows, Keeps};
ghost use Rattle.ql_syntax.specs.TagFilters.{tag_filter, tag_rest, tag_value, tag_text, tag_text_at, tag_close, cause_in_tag};
ghost use Rattle.ql_syntax.specs.internal.FilterReaders.{the_filter};
ghost use Rattle.ql_syntax.specs.internal.Views.{next_of, the_rest, the_bytes};
ghost use Rattle.std.specs.Prelude.{◌≡◌};

use crate::cause::QlCause;
use crate::filter::Filter;
use crate::ql_text::QlText;
use crate::quoted::{begins_quoted, read_quoted};
use crate::syntax_error::SyntaxError;
use crate::token::{Token, next_token};
use crate::token_kind::TokenKind;
use crate::word::{begins_run, split_run};
use std::alloc::Global;

/// The filter after its `[`, and what is left after its `]`.
///
/// `Unsupported` at a `~` or a `!~`, wherever it stands inside.
pub(crate) fn read_tag_filter(
    alloc: Global,
    text: &[u8],
) -> Result<(Filter<'_>, &[u8]), SyntaxError<'_>>
    ensures { Follows tag_filter the_filter text.now result }
{
    let token = next_token(text)?;
    match token.kind {
        TokenKind::Not => {
            let (key, rest) = read_tag_value(alloc, token.rest)?;
            Ok((Filter::LacksKey(key), rest))
        }
        _ => {
            let (key, rest) = tag_text_at(alloc, token)?;
            read_tag_rest(alloc, key, rest)
        }
    }
}

/// The filter whose key has been read.
fn read_tag_rest<'a>(
    alloc: Global,
    key: QlText<'a>,
    text: &'a [u8],
) -> Result<(Filter<'a>, &'a [u8]), SyntaxError<'a>>
    ensures { Follows (tag_rest key.entry) the_filter text.now result }
{
    let token = next_token(text)?;
    match token.kind {
        TokenKind::CloseBracket => Ok((Filter::HasKey(key), token.rest)),
        TokenKind::Equal => {
            let (value, rest) = read_tag_value(alloc, token.rest)?;
            Ok((Filter::KeyIs(key, value), rest))
        }
        TokenKind::NotEqual => {
            let (value, rest) = read_tag_value(alloc, token.rest)?;
            Ok((Filter::KeyIsNot(key, value), rest))
        }
        _ => Err(not_in_tag(token)),
    }
}

/// A key or a value, and what is left after the `]` that follows it.
fn read_tag_value(alloc: Global, text: &[u8]) -> Result<(QlText<'_>, &[u8]), SyntaxError<'_>>
    ensures { Follows tag_value the_bytes text.now result }
{
    let (value, rest) = read_tag_text(alloc, text)?;
    let rest = pass_tag_close(rest)?;
    Ok((value, rest))
}

/// A key or a value.
fn read_tag_text(alloc: Global, text: &[u8]) -> Result<(QlText<'_>, &[u8]), SyntaxError<'_>>
    ensures { Follows tag_text the_bytes text.now result }
{
    tag_text_at(alloc, next_token(text)?)
}

/// The key or value that begins with this token.
fn tag_text_at(alloc: Global, token: Token<'_>) -> Result<(QlText<'_>, &[u8]), SyntaxError<'_>>
    ensures { Follows (tag_text_at (next_of token.entry)) the_bytes token.entry.rest.now result }
{
    if begins_quoted(token.place) {
        let quoted = read_quoted(alloc, token.place)?;
        Ok((quoted.text, quoted.rest))
    } else if begins_run(token.place) {
        let found = split_run(token.place);
        Ok((QlText::borrowed(found.run), found.rest))
    } else {
        Err(not_in_tag(token))
    }
}

/// What is left after the `]`.
fn pass_tag_close(text: &[u8]) -> Result<&[u8], SyntaxError<'_>>
    ensures { Keeps tag_close the_rest text.now result }
{
    let token = next_token(text)?;
    match token.kind {
        TokenKind::CloseBracket => Ok(token.rest),
        _ => Err(not_in_tag(token)),
    }
}

/// The error at a token that can't stand where it does inside the `[ ]`.
fn not_in_tag(token: Token<'_>) -> SyntaxError<'_>
    ensures cause { result.cause ≡ cause_in_tag token.entry.kind }
    ensures rest { result.rest.now ≡ token.entry.place.now }
{
    match token.kind {
        TokenKind::Tilde | TokenKind::NotTilde => SyntaxError::at(
            QlCause::Unsupported,
            token.place,
        ),
        _ => token.unexpected(),
    }
}
