//! Blanks and comments.

ghost use Rattle.std.specs.Prelude.{◌≡◌, ◌<◌, ◌≤◌, ℕ, List, length, IfOk, IfErr, MatchOption};
ghost use Rattle.ql_syntax.specs.Gaps.{gap, is_blank, Between, InLine, InBlock, After, Open};

use crate::cause::QlCause;
use crate::syntax_error::SyntaxError;

/// What follows the blanks and comments at the front of a text: the longest run of them.
///
/// A comment that isn't closed is `Unclosed` at its first byte. Linear in what it skips; it takes no
/// memory.
#[inline(always)]
pub(crate) fn skip_gap(text: &[u8]) -> Result<&[u8], SyntaxError<'_>>
    ensures read { IfOk result (λ rest. gap Between text.now ≡ After rest.now) }
    ensures refused { IfErr result (λ error. (error.cause ≡ QlCause.Unclosed)
        × (gap Between text.now ≡ Open error.rest.now)) }
    ensures within { IfOk result (λ rest. length rest.now ≤ length text.now) }
{
    match text {
        [first, ..] if is_blank(*first) || *first == b'/' => skip_pieces(text),
        _ => Ok(text),
    }
}

/// What follows the blanks and comments at the front of a text.
#[inline(never)]
fn skip_pieces(text: &[u8]) -> Result<&[u8], SyntaxError<'_>>
    ensures read { IfOk result (λ rest. gap Between text.now ≡ After rest.now) }
    ensures refused { IfErr result (λ error. (error.cause ≡ QlCause.Unclosed)
        × (gap Between text.now ≡ Open error.rest.now)) }
    ensures within { IfOk result (λ rest. length rest.now ≤ length text.now) }
{
    let mut rest = text;
    while let Some(after) = after_piece(rest)? {
        rest = after;
    }
    Ok(rest)
}

/// What follows the blank or the comment that comes first, where one does.
fn after_piece(text: &[u8]) -> Result<Option<&[u8]>, SyntaxError<'_>>
    ensures read { IfOk result (λ after. MatchOption after (gap Between text.now ≡ After text.now)
        (λ rest. (gap Between text.now ≡ gap Between rest.now)
        × (length rest.now < length text.now))) }
    ensures refused { IfErr result (λ error. (error.cause ≡ QlCause.Unclosed)
        × (gap Between text.now ≡ Open error.rest.now)) }
{
    match text {
        [first, rest @ ..] if is_blank(*first) => Ok(Some(rest)),
        [b'/', b'/', rest @ ..] => Ok(Some(line_end(rest))),
        [b'/', b'*', rest @ ..] => match after_block(rest) {
            Some(after) => Ok(Some(after)),
            None => Err(SyntaxError::at(QlCause::Unclosed, text)),
        },
        _ => Ok(None),
    }
}

/// Whether the byte is a space, a tab, a CR or an LF.
fn is_blank(byte: u8) -> bool
    ensures { result ≡ is_blank byte }
{
    matches!(byte, b' ' | b'\t' | b'\r' | b'\n')
}

/// The end of a line comment: the LF, or the end of the text.
fn line_end(text: &[u8]) -> &[u8]
    ensures same { gap InLine text.now ≡ gap Between result.now }
    ensures within { length result.now ≤ length text.now }
{
    for (i, byte) in text.iter().enumerate() {
        if *byte == b'\n' {
            return &text[i..];
        }
    }
    &[]
}

/// What follows the `*/` that comes first, where one does.
fn after_block(text: &[u8]) -> Option<&[u8]>
    ensures { MatchOption result ((comment : List ℕ) → gap (InBlock comment) text.now
        ≡ Open comment)
        (λ rest. ((comment : List ℕ) → gap (InBlock comment) text.now ≡ gap Between rest.now)
        × (length rest.now ≤ length text.now)) }
{
    for i in 1..text.len() {
        if text[i - 1] == b'*' && text[i] == b'/' {
            return Some(&text[i + 1..]);
        }
    }
    None
}
