//! Words, and the names of sets.

ghost use Rattle.std.specs.Prelude.{◌≡◌, ◌≤◌, length, take, drop, false, true, IfOk, IfErr, IfSome, IfNone};
ghost use Rattle.std.specs.List.{list_all};
ghost use Rattle.ql_syntax.specs.Words.{IsRun, IsWord, IsName, IsNoName, begins_with, is_run_byte, is_word_start};

use crate::cause::QlCause;
use crate::syntax_error::SyntaxError;

/// The letters, digits and `_` at the front of a text, and what is left after them.
#[derive(Clone, Copy)]
pub(crate) struct Run<'a> {
    /// The longest such run, perhaps empty.
    pub(crate) run: &'a [u8],
    /// What is left.
    pub(crate) rest: &'a [u8],
}

/// Takes the longest run of letters, digits and `_` off the front of a text. It may be empty.
pub(crate) fn split_run(text: &[u8]) -> Run<'_>
    ensures run { IsRun text.now result.run.now result.rest.now }
    ensures within { length result.rest.now ≤ length text.now }
{
    let (run, rest) = text.split_at(run_len(text));
    Run { run, rest }
}

/// Takes a word off the front of a text, where one stands there.
pub(crate) fn split_word(text: &[u8]) -> Option<Run<'_>>
    ensures word { IfSome result (λ found. IsWord text.now found.run.now found.rest.now) }
    ensures none { IfNone result (begins_with is_word_start text.now ≡ false) }
{
    match text {
        [first, ..] if is_word_start(*first) => Some(split_run(text)),
        _ => None,
    }
}

/// The name of a set after its dot; `dot` is the text from the dot on.
///
/// Where no word follows the dot, it is `UnexpectedCharacter` at the dot, or `UnexpectedEnd` where the
/// text ends there.
pub(crate) fn split_name<'a>(dot: &'a [u8], after: &'a [u8]) -> Result<Run<'a>, SyntaxError<'a>>
    ensures name { IfOk result (λ found. IsName after.now found.run.now found.rest.now) }
    ensures refused { IfErr result
        (λ error. IsNoName dot.now after.now error.cause error.rest.now) }
{
    match split_word(after) {
        Some(found) => Ok(found),
        None if after.is_empty() => Err(SyntaxError::at(QlCause::UnexpectedEnd, after)),
        None => Err(SyntaxError::at(QlCause::UnexpectedCharacter, dot)),
    }
}

/// How many letters, digits and `_` come first.
fn run_len(text: &[u8]) -> usize
    ensures within { result ≤ length text.now }
    ensures run { list_all is_run_byte (take result text.now) ≡ true }
    ensures longest { begins_with is_run_byte (drop result text.now) ≡ false }
{
    for (i, byte) in text.iter().enumerate() {
        if !is_run_byte(*byte) {
            return i;
        }
    }
    text.len()
}

/// Whether a letter, a digit or `_` comes first.
pub(crate) fn begins_run(text: &[u8]) -> bool
    ensures { result ≡ begins_with is_run_byte text.now }
{
    match text {
        [first, ..] => is_run_byte(*first),
        [] => false,
    }
}

/// Whether the byte is a letter, a digit or `_`.
fn is_run_byte(byte: u8) -> bool
    ensures { result ≡ is_run_byte byte }
{
    byte.is_ascii_alphanumeric() || byte == b'_'
}

/// Whether a word may begin with the byte: a letter or `_`.
pub(crate) fn is_word_start(byte: u8) -> bool
    ensures { result ≡ is_word_start byte }
{
    byte.is_ascii_alphabetic() || byte == b'_'
}
