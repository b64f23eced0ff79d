//! Texts between quotes.

ghost use Rattle.std.specs.Prelude.{◌≡◌, ◌≤◌, ◌<◌, ℕ, true, length, take, drop, slice_index, IfOk, IfErr, IfSome, MatchOption};
ghost use Rattle.std.specs.List.{AllByRecursion};
ghost use Rattle.ql_syntax.specs.Words.{begins_with};
ghost use Rattle.ql_syntax.specs.internal.Places.{IsMemoryOr};
ghost use Rattle.ql_syntax.specs.QuotedTexts.{IsQuoted, IsNotQuoted, StopsInside, is_quote};
ghost use Rattle.ql_syntax.specs.internal.QuotedSteps.{EndsLiterals, Takes, Closes, IsLiteral};

use crate::cause::QlCause;
use crate::escape::{Escape, split_escape};
use crate::ql_text::QlText;
use crate::syntax_error::SyntaxError;
use std::alloc::{AllocError, Global};

/// The text between quotes at the front of a text, and what is left after it.
#[derive(Drop)]
pub(crate) struct Quoted<'a> {
    /// The text, with its escapes read.
    pub(crate) text: QlText<'a>,
    /// What is left.
    pub(crate) rest: &'a [u8],
}

/// Whether a quote comes first.
pub(crate) fn begins_quoted(text: &[u8]) -> bool
    ensures { result ≡ begins_with is_quote text.now }
{
    matches!(text, [b'"' | b'\'', ..])
}

/// Takes a text between quotes off the front of a text that begins with `"` or `'`.
///
/// It is `Unclosed` at the quote where the text ends inside, also inside an escape, `BadEscape` at the
/// `\` of what is no escape, and `UnexpectedCharacter` at a NUL: the first of these from the left.
/// Linear; it takes memory for a text with escapes alone.
pub(crate) fn read_quoted(alloc: Global, text: &[u8]) -> Result<Quoted<'_>, SyntaxError<'_>>
    requires { begins_with is_quote text.now ≡ true }
    ensures read { IfOk result (λ quoted. IsQuoted text.now quoted.text quoted.rest.now) }
    ensures refused { IfErr result (λ error. IsMemoryOr (IsNotQuoted text.now) error) }
{
    if let Some(quoted) = split_literal(text) {
        return Ok(quoted);
    }
    let mut content = Vec::new(alloc);
    let mut place = &text[1..];
    while let Some(next) = take_pieces(text, place, &mut content)? {
        place = next;
    }
    Ok(Quoted {
        text: QlText::owned(content),
        rest: &place[1..],
    })
}

/// The text between quotes at the front, where no escape stands in it.
fn split_literal(text: &[u8]) -> Option<Quoted<'_>>
    requires { begins_with is_quote text.now ≡ true }
    ensures { IfSome result (λ quoted. IsQuoted text.now quoted.text quoted.rest.now) }
{
    let place = &text[1..];
    let (literal, rest) = place.split_at(literal_len(text[0], place));
    match rest {
        [quote, rest @ ..] if *quote == text[0] => Some(Quoted {
            text: QlText::borrowed(literal),
            rest,
        }),
        _ => None,
    }
}

/// Takes what comes next inside a text between quotes, and adds what it stands for: bytes that stand
/// for themselves, or one escape. Gives what is left then, or nothing at the closing quote.
fn take_pieces<'a>(
    text: &'a [u8],
    place: &'a [u8],
    content: &mut Vec<u8>,
) -> Result<Option<&'a [u8]>, SyntaxError<'a>>
    requires { 0 < length text.now }
    ensures read { IfOk result
        (λ next. MatchOption next (Closes (slice_index text.now 0) place.now content.old.items content.new.items)
        (λ rest. Takes (slice_index text.now 0) place.now rest.now content.old.items content.new.items)) }
    ensures refused { IfErr result (λ error. IsMemoryOr (StopsInside text.now place.now) error) }
{
    let (literal, rest) = place.split_at(literal_len(text[0], place));
    if !literal.is_empty() {
        content.extend_from_slice(literal)?;
        return Ok(Some(rest));
    }
    match place {
        [] => Err(SyntaxError::at(QlCause::Unclosed, text)),
        [b'\\', ..] => Ok(Some(take_escape(text, place, content)?)),
        [0, ..] => Err(SyntaxError::at(QlCause::UnexpectedCharacter, place)),
        _ => Ok(None),
    }
}

/// Takes an escape, and adds what it stands for. Gives what is left.
fn take_escape<'a>(
    text: &'a [u8],
    place: &'a [u8],
    content: &mut Vec<u8>,
) -> Result<&'a [u8], SyntaxError<'a>>
    requires some { 0 < length place.now }
    requires escape { slice_index place.now 0 ≡ 92 }
    ensures read { IfOk result
        (λ rest. (quote : ℕ) → Takes quote place.now rest.now content.old.items content.new.items) }
    ensures refused { IfErr result (λ error. IsMemoryOr (StopsInside text.now place.now) error) }
{
    match split_escape(&place[1..]) {
        Escape::Character(character, rest) => {
            let mut buffer = [0; 4];
            content.extend_from_slice(character.encode_utf8(&mut buffer).as_bytes())?;
            Ok(rest)
        }
        Escape::Bad => Err(SyntaxError::at(QlCause::BadEscape, place)),
        Escape::Cut => Err(SyntaxError::at(QlCause::Unclosed, text)),
    }
}

/// How many bytes stand for themselves before the first that doesn't.
fn literal_len(quote: u8, text: &[u8]) -> usize
    ensures within { result ≤ length text.now }
    ensures literal { AllByRecursion (IsLiteral quote) (take result text.now) }
    ensures stop { EndsLiterals quote (drop result text.now) }
{
    for (i, byte) in text.iter().enumerate() {
        if *byte == quote || *byte == b'\\' || *byte == 0 {
            return i;
        }
    }
    text.len()
}
